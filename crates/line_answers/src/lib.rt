// The answer to one line, and what is printed for it: the argument sheet's, and that of `places`; what lines with a body have in common.
#![tactic(auto)]

pub mod body_line;
pub mod places_line;
pub mod refused;
pub mod sheet;
