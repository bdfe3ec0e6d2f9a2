//! The numbers, sizes and characters that constraints leave (X.680 clauses 49 to 51, as this profile has them).
#![tactic(auto)]

mod along;
mod answer;
mod asks;
mod borders;
mod ends;
mod evaluate;
mod fault;
mod laws;
mod letters;
mod low;
mod sized;
mod span;
mod standing;

pub use answer::{alphabet_of, range_of, size_of, text_of};
pub use ends::{OpenSet, TextSets};
pub use fault::ConstraintFault;
pub use laws::sets_hold_what_they_permit;
