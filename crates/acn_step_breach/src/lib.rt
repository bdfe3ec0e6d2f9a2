//! The constraints of a value, tested over the steps of a plan. No memory is taken.
#![tactic(auto)]

mod breach;
mod leaves;
mod steps;

pub use breach::breach_of;
pub use steps::{inner_at, step_at};
