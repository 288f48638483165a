// The argument sheet, on empty input.
#![tactic(auto)]

use lines::line::Form;

fn main(rt: HostRuntime) {
    lines::run(&rt, Form::Sheet);
}
