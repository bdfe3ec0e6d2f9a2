//! Numbers of leaves whose codes are a shortest, or a longest.
#![tactic(auto)]

mod numbers;

pub use numbers::number_at;
