// From the centre to the runner: vectors, parallax, the horizon, and the place at an instant.
#![tactic(auto)]

pub mod geocentric;
pub mod horizon;
pub mod observer;
pub mod orientation;
pub mod place;
pub mod rotation;
pub mod station;
pub mod vector;
