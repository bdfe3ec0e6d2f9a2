//! The tree that is made of a type of a world as sources give it is well formed, where no reason stands against the type.
#![tactic(auto)]

mod laws;

pub use laws::{
    inserted_fields_of_sources_fit, made_trees_are_trees, names_inside_of_sources_differ,
};
