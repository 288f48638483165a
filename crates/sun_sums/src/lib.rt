// The Sun's periodic sums.
#![tactic(auto)]

pub mod sun;
