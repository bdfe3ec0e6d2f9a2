//! Terminators: where one stands in a text that it follows.
#![tactic(auto)]

mod ends;

pub use ends::first_end;
