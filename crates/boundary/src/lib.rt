// What C hands over and is handed, between its numbers and the library: codes, a strip's header, what is refused, arrays that are lent.
#![tactic(auto)]

pub mod codes;
pub mod fault;
pub mod given;
pub mod lent;
pub mod refusals;
