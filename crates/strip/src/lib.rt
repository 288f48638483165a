// Day strips: a day's azimuths as octets, their format and the checks of it (02, Items 6 and 9).
#![tactic(auto)]

pub mod air;
pub mod checks;
pub mod header;
