// Decimal numbers in lines of ASCII bytes, read and written.
#![tactic(auto)]

pub mod buffer;
pub mod decimal;
pub mod line;
