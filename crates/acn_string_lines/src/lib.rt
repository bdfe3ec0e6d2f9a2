//! Octets, bits and texts are put as they stand in a line while their bits are read.
#![tactic(auto)]

mod letters;
mod sevens;
mod sizes;
mod strings;
mod words;

pub use sizes::size;
pub use strings::{put_bits, put_octets, put_text};
