// Turning points instead of a strip: their form, and the azimuth between two of them (02, Item 7).
#![tactic(auto)]

pub mod arc;
pub mod points;
