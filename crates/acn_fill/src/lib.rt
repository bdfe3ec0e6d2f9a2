//! The table of open slots of a writer in place: what was asked of each so far, and the hole for its number. It takes no
//! memory. Holes and least numbers are this profile's own.
#![tactic(auto)]

mod spot;
mod table;

pub use table::{Conflict, Fills, LargestFills, MOST_AVOIDED, MOST_AVOIDED_IN_ALL};
