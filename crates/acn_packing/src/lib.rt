//! A value packed into a buffer of fixed size, without memory, by one walk over the value and the steps of a plan.
#![tactic(auto)]

mod limits;
mod octets;
mod packing;
mod refusal;
mod tries;

pub use limits::PACKET_OCTETS;
pub use packing::{Packer, pack};
