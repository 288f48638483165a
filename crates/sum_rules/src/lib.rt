// The types of the sums' rules. The rules are in specs/; nothing here runs.
#![tactic(auto)]

pub mod instant;
pub mod moon;
