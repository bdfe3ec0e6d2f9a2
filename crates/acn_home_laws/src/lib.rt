//! What the paths of a tree's nodes say of the order and the homes of slots.
#![tactic(auto)]

mod laws;

pub use laws::{
    enclosed_nodes_go_on, homes_are_fine, homes_are_found, nodes_inside_go_on, nodes_rise,
    slot_rules_hold, slots_are_counted, slots_are_used, uses_are_open,
};
