// The arctangent of a pair of numbers, equal to its rule.
#![tactic(auto)]

pub mod direction;
mod limbs;
mod turning;
