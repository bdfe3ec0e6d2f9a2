//! What holds at each site of a type: its base stands in the text of the world; and where this is sound, its items can be those of an enumeration, and its form is fine.
#![tactic(auto)]

mod laws;

pub use laws::{bases_stand, forms_of_sites_are_fine, no_type_repeats_a_name, sites_have_items};
