// The argument sheet, on the case of the build description.
#![tactic(auto)]

use lines::line::Form;

fn main(rt: HostRuntime) {
    lines::run(&rt, Form::Sheet);
}
