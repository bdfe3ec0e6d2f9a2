//! Files that are read whole, one after the other.
#![tactic(auto)]

mod whole;

pub use whole::{FilesFault, read_files};
