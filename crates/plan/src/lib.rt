// A plan of a day: turning points that the watch never refuses, and of which it needs each (02, Item 7). For the phone.
#![tactic(auto)]

pub mod answer;
pub mod planner;
