// How much of the Sun the Moon covers.
#![tactic(auto)]

pub mod answer;
pub mod disks;
pub mod radius;
pub mod separation;
