// 01's run cases and the reports' own examples. Each line names the values of one table, and marks those that do not come out: the
// stored output has no mark.
#![tactic(auto)]

mod by_hand;
mod eclipses;
mod moon_example;
mod report;
mod steps;
mod sun_example;

use std::io;

fn main(rt: HostRuntime) -> io::Result<()> {
    by_hand::run_cases(&rt)?;
    by_hand::whole_path(&rt)?;
    sun_example::table_a5_1(&rt)?;
    moon_example::table_a_1_2(&rt)?;
    eclipses::table_4(&rt)
}
