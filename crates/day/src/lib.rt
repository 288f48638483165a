// A day: its date, the course of a body over it, and the curve of a number at its 1,440 minutes.
#![tactic(auto)]

pub mod course;
pub mod curve;
pub mod date;
