//! Values out of bits by a walk over the tree, slowly: what the fast way is compared with.
#![tactic(auto)]

mod decode;
mod read;
mod slot;

pub use decode::read_packet;
