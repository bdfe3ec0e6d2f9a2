//! What the parts of a node ask of the slots that are at home round it, in a walk over a value.
#![tactic(auto)]

mod opened;
mod parts;
mod wanted;

pub use opened::{Open, open_home};
pub use parts::{ask_own, ask_presence, ask_rule, ask_size, count};
