// What a day strip says, and which of two bears a date (02, Items 6 and 9).
#![tactic(auto)]

pub mod lookup;
pub mod reader;
