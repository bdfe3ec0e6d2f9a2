//! Whether a grammar is that of a well-formed tree.
#![tactic(auto)]

mod homes;
mod names;
mod node_rules;
mod open_homes;
mod tallies;
mod well_formed;

pub use well_formed::is_well_formed;
