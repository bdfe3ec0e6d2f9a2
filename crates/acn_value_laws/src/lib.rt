//! That references of values are followed far enough in every world: what the definition by a bound finds is what a rule without one says.
#![tactic(auto)]

mod laws;

pub use laws::values_are_found_where_references_end;
