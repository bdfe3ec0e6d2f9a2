//! Names that are given twice in one place, and faults of names as the text tells them.
#![tactic(auto)]

mod all;
pub mod blame;
mod lists;
mod repeated;
mod repeated_acn;
pub mod seen;
mod twice_types;

pub use all::push_repeats;
pub use blame::{Blame, Kind, push_blames};
