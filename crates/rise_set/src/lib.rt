// The rise and the set of a body on a day, from its curve of 1,440 elevations, worked once and kept (02, Item 1).
#![tactic(auto)]

pub mod answer;
pub mod crossing;
