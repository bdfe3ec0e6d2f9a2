//! What the programs over case files share: the way from line to line, words, octets, and the notation of leaves.
#![tactic(auto)]

mod leaf;
mod line;
mod octets;
mod running;
mod text;
mod words;

pub use leaf::{leaf_of, set_of};
pub use octets::{bits_in_words, octets_in_words, octets_of, pattern_of};
pub use running::{Answers, run_cases};
pub use text::{sizing_of, text_of};
pub use words::{behind, has, number, of_word, small, wide, word};
