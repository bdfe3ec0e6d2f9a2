//! Lines that warn of an accepted tree: no value of it can be written, or a field can't say some
//! size that a node permits.
#![tactic(auto)]

mod packets;
mod sizes;
mod walk;

pub use packets::has_no_packet;
pub use sizes::unsaid_sizes;
pub use walk::put_warnings;
