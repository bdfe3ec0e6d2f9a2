//! The numbers of an enumeration's items: whether two have one, or one lacks one.
#![tactic(auto)]

mod items;
mod seen;

pub use items::{EnumFault, enum_values};
