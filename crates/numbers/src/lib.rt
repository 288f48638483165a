// Numbers and angles: floors, sine and root, each equal to its rule.
#![tactic(auto)]

pub mod angle;
pub mod root;
pub mod sine;
pub mod sine_table;
pub mod whole;
