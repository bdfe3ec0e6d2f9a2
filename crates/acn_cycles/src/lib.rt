//! Finds the first type or value that reaches itself over references.
#![tactic(auto)]

mod cycle;
mod numbers;
mod rows;
mod targets;

pub use cycle::{Round, first_cycle};
