//! The shortest and the longest packet that a tree has.
#![tactic(auto)]

mod answer;
mod best;
mod characters;
mod parts;
mod reached;
mod slots;
mod ways;

pub use acn_extreme_laws::Why;
pub use answer::{Ends, ExtremesFault};
pub use reached::extremes;
