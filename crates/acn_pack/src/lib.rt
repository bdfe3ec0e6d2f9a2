//! A value written in place, by a walk over the steps of a plan.
#![tactic(auto)]

mod asking;
mod components;
mod flags;
mod leaves;
mod node;
mod parts;
mod steps;
mod trace;
mod values;
mod walk;
mod word;

pub use node::pack_node;
pub use trace::Trace;
