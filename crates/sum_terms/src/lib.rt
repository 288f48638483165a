// What the sums are made of: instants and their powers, polynomials, the angle and the term of a row.
#![tactic(auto)]

pub mod instant;
pub mod terms;
