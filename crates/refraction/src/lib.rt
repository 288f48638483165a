// The air of a request, and how much it raises a body.
#![tactic(auto)]

pub mod air;
pub mod formula;
