//! Pieces of lines that are read as they are printed. And which trees have lines that give the value back.
#![tactic(auto)]

mod names;
mod numbers;
mod rest;
mod text_names;
mod texts;

pub use names::{HasName, in_order_of_names, number_by_halves};
pub use numbers::{read_integer, read_number};
pub use rest::{Rest, behind};
pub use text_names::has_text_names;
pub use texts::{read_bits, read_characters, read_octets};
