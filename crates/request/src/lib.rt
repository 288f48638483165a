// A request's start and point: the checks 1 to 9, and the start's instant.
#![tactic(auto)]

pub mod point;
pub mod start;
