//! What a page says of a recording in which a packet can't be read: where the packet begins, the
//! octets round the bit, and what is permitted there.
#![tactic(auto)]

mod octets;
mod packets;
mod reasons;

pub use packets::put_bad_packet;
