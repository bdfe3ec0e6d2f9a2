//! How long the packets of an accepted tree are, in bits.
#![tactic(auto)]

mod interval;

pub use interval::{bounds, bounds_at};
