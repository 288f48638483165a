// A day's azimuths at a step: the numbers that the writer of a strip is handed (02, Item 6).
#![tactic(auto)]

pub mod answer;
pub mod steps;
