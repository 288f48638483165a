// The tables of the reports, as constants to lend.
#![tactic(auto)]

pub mod moon_terms;
pub mod nutation_terms;
pub mod sun_terms;
