// The Moon's periodic sums.
#![tactic(auto)]

pub mod moon;
