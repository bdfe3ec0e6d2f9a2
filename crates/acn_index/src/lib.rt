//! The sources as they are found by name: what each name leads to, and where imports and references end.
#![tactic(auto)]

pub mod chain;
pub mod ends;
pub mod index;
mod indexing;
mod jumps;
mod laws;
pub mod lookup;
pub mod maps;
pub mod places;
pub mod references;
mod sources;
pub mod values;

pub use laws::{links_are_the_whole_chain, lookups_find_what_names_lead_to};
pub use sources::{EntryPlace, Sources, TypeId};
