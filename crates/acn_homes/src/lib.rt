//! The numbers of slots and their homes, from the paths of fields and of the nodes that use them.
#![tactic(auto)]

mod fields;
mod homes;
mod laws;
mod paths;
mod slots;
mod uses;

pub use homes::{Homes, MOST_SLOTS};
pub use laws::{
    each_is_at_home_once, homes_are_smallest, homes_list_their_slots, named_fields_are_numbered,
    numbers_at_home_ascend, numbers_follow_preorder, numbers_tell_slots, slots_are_named,
    slots_are_nodes,
};
pub use uses::Use;
