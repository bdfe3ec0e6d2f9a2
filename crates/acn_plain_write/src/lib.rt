//! The bits of a value by a walk over the tree, slowly: what the fast way is compared with.
#![tactic(auto)]

mod contents;
mod home;
mod inserted;
mod leaves;
mod packet;
mod parts;
mod write;

pub use packet::write_packet;
