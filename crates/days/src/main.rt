// Rise and set of the Sun and the Moon, one day a line, on requests of every kind.
#![tactic(auto)]

use lines::line::Form;

fn main(rt: HostRuntime) {
    lines::run(&rt, Form::Days);
}
