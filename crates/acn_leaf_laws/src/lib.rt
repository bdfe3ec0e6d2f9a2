//! The leaves of sites that have no reason are fine.
#![tactic(auto)]

mod laws;

pub use laws::{
    alignments_are_fine, booleans_are_fine, enumerations_are_fine, forms_are_fine,
    integers_are_fine, lists_are_fine, names_differ_where_none_is_repeated, nulls_are_fine,
    sizes_are_fine, texts_are_fine,
};
