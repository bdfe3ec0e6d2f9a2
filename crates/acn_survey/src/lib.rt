//! A walk over the sites of a type, in preorder: the first reason for which the type can't be made, and else which fields
//! determine something and who uses them.
#![tactic(auto)]

mod judge;
mod place;
mod reason;
mod visits;

pub use judge::reason_at;
pub use place::text_below;
pub use reason::{MergeFault, MergeReason, Refused};
pub use visits::{Walk, survey};
