// Places of the Sun and the Moon, one request a line, on requests of every kind.
#![tactic(auto)]

use lines::line::Form;

fn main(rt: HostRuntime) {
    lines::run(&rt, Form::Places);
}
