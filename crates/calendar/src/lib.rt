// Dates and refusals: the day count of a Gregorian date, and the papers' numbered refusals.
#![tactic(auto)]

pub mod day_count;
pub mod refusal;
