//! The trees of sources as texts, with a space before each token: what the programs over case files print.
#![tactic(auto)]

mod acn;
mod asn;

pub use acn::{acn_in_words, map_in_words};
pub use asn::{asn_in_words, base_in_words, constraint_in_words, value_in_words};
