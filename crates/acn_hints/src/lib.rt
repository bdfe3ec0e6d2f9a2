//! Whether a name is among those of a list, with hints where to look first.
#![tactic(auto)]

mod hints;

pub use hints::{HasName, Hints};
