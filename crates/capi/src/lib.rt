// The functions that C and Rust call, each a few lines over the library. One form on every processor: numbers of 32 and 64 bits and doubles in, references to
// arrays of numbers and slices; the refusal comes back (0 where there is none), the answer is written through a reference, and a refused call writes nothing.
#![tactic(auto)]

pub mod air;
pub mod azimuths;
pub mod days;
pub mod disks;
pub mod instants;
pub mod leaves;
pub mod middle;
pub mod place;
pub mod proposals;
pub mod samples;
pub mod strips;
