//! Texts that are printed: their pieces, and how they go to an output.
#![tactic(auto)]

mod piece;

pub use piece::{Piece, put_all, put_piece};
