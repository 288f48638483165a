// The sky: a body's place from a point on Earth, and as it is shown.
#![tactic(auto)]

pub mod answer;
pub mod shown;
