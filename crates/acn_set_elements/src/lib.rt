//! What the elements of constraints stand for, and which of them may stand in a constraint of which type.
#![tactic(auto)]

mod numbers;
pub mod stand;
mod uses;
pub mod written;

pub use numbers::NumberNames;
pub use stand::all_stand;
pub use written::{character_in, next_character, number_in, plain_number_in, signed, text_in};
