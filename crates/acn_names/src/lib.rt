//! Resolves the names of the sources: the world of what they say, or the first fault of a name. A world and its types are
//! handed on from acn_world.
#![tactic(auto)]

mod early;
mod few;
mod first;
mod gathering;
mod laws;
mod missing;
mod resolving;
mod unknown;
mod unknown_acn;
mod wrong;

pub use acn_world::{Chain, EntryAt, NameFault, Sources, TypeId, World};
pub use early::early_fault;
pub use few::are_few;
pub use gathering::gather;
pub use laws::{
    each_named_value_is_found, each_type_has_a_base, references_have_the_chain_of_their_type,
};
pub use resolving::resolve;
pub use wrong::late_fault;
