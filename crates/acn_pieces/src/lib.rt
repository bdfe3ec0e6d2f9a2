//! The pieces of a packet: its parts, bit by bit, by a walk over a tree and a value.
#![tactic(auto)]

mod laws;
mod parts;
mod piece;
mod walk;

pub use laws::{joined_pieces_are_the_bits, pieces_are_joined, sound_values_can_be_walked};
pub use piece::{Piece, PieceKind};
pub use walk::list_pieces;
