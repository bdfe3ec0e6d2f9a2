//! What is known of the pieces of a packet: their bits are those of the parts that they stand for.
#![tactic(auto)]

mod laws;

pub use laws::pieces_tell_their_parts;
