//! That what a value asks of the determinants of a tree can be gathered by a walk over it: the conditions of the walk, and the law
//! that they hold for each value of an accepted tree.
#![tactic(auto)]

mod laws;

pub use laws::sound_values_can_be_gathered;
