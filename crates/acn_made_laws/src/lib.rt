//! What the sites of a type say of the tree that is made of them.
#![tactic(auto)]

mod laws;

pub use laws::{
    made_choices_are_ruled, made_outer_forms_are_fine, made_roles_are_fine, made_slot_rules_hold,
    made_slots_are_numbered, made_tree_is_fine_where_its_forms_are,
    made_tree_is_fine_where_its_leaves_are, made_tree_is_within_limits, nodes_stand_at_sites,
    nodes_stand_for_sites, sites_have_no_reason,
};
