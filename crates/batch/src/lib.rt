// Many samples from one start.
#![tactic(auto)]

pub mod samples;
