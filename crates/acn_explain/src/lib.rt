//! Packets explained: the parts of a packet, bit by bit, and the lines that say them.
#![tactic(auto)]

mod buffer;
mod lines;
mod packet;
mod stream;

pub use acn_pieces::{Piece, PieceKind};
pub use buffer::Buffer;
pub use packet::explain;
pub use stream::explain_all;
