//! Reads and writes the codes of numbers.
#![tactic(auto)]

mod counted;
mod digit_writer;
mod digits;
mod ended;
mod ended_codings;
mod filler;
mod fixed;
mod known;
mod most;
mod ordered;
mod piece;
mod reader;
mod said;
mod writer;

pub use filler::{code_length, fill_num, list_num};
pub use ordered::pattern_number;
pub use reader::read_num;
pub use writer::put_num;
