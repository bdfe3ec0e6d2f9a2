//! The tree that a type of the sources is made into, or the first reason why there is none.
#![tactic(auto)]

mod fault;
mod merging;

pub use acn_survey::{MergeReason, Refused};
pub use fault::MergeFault;
pub use merging::merge;
