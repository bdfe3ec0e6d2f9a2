//! The world of the sources: chains, entries, roots and values by name, and which name is at fault.
#![tactic(auto)]

mod chains;
pub mod entries;
mod fault;
mod laws;
pub mod referring;
pub mod roots;
mod silent;
mod world;

pub use acn_index::{EntryPlace, Sources, TypeId};
pub use chains::Chain;
pub use entries::EntryAt;
pub use fault::NameFault;
pub use laws::{
    assigned_chains_have_their_own_entry, entries_stand_at_their_places, no_cycle_among_ranks,
    no_fault_in_a_sound_world,
};
pub use world::World;
