// How the Earth stands: nutation, the obliquity, sidereal time.
#![tactic(auto)]

pub mod nutation;
pub mod sidereal;
