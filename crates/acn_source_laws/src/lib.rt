//! What the types hold that stand in proper sources, as files have them: lists of items and of alternatives aren't empty.
#![tactic(auto)]

mod laws;

pub use laws::{proper_sources_give_a_world, sources_of_files_are_proper};
