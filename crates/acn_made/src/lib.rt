//! The node that a site is made into: its form and its alignment, its fields and alternatives with their conditions, and the slots
//! that it uses.
#![tactic(auto)]

mod conditions;
mod fields;
mod named;
mod nodes;
mod parts;
mod sized;
mod texts;

pub use nodes::made;
