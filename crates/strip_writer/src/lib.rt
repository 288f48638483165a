// A day strip into a lent buffer, and that what is written is read again (02, Items 6 and 9).
#![tactic(auto)]

pub mod writer;
