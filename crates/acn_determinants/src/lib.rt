//! Where the determinants of a tree stand, and what they are: the fields that say the numbers of slots.
#![tactic(auto)]

mod finding;
mod found;
mod homes;
mod leaves;

pub use homes::{Determinant, determinants};
pub use leaves::slot_leaf;
