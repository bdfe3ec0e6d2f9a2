//! The layout of a tree: a line for each node, which says where the node stands, what it is, how many bits it has and how they are made.
//! No call takes memory.
#![tactic(auto)]

mod coding;
mod line;
mod sizes;
mod tag;
mod walk;

pub use walk::put_layout;
