//! What a value asks of the numbers of slots, gathered by a walk over a tree, in the order of the packet.
#![tactic(auto)]

mod contents;
mod home;
mod places;
mod root;
mod walk;

pub use root::moments;
