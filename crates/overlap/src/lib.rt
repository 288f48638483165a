// The share of one disk that another covers (02, Item 4).
#![tactic(auto)]

pub mod overlap;
pub mod short_arctangent;
