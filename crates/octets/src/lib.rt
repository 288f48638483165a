// Numbers as octets, the highest first: out of a lent slice, and into a lent buffer.
#![tactic(auto)]

pub mod fields;
pub mod number;
