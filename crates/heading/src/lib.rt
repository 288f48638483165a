// The middle of two azimuths.
#![tactic(auto)]

pub mod middle;
