//! How many bits a value has.
#![tactic(auto)]

mod ends;
mod parts;

pub use ends::{bit_end, sound_values_can_be_measured};
