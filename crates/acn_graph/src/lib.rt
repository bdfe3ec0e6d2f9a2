//! Finds the first node of a graph that leads to itself.
#![tactic(auto)]

mod parts;
mod ring;
mod rows;
mod search;

pub use ring::{Ring, first_ring};
