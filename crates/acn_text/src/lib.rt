//! Reads and writes the codes of texts.
#![tactic(auto)]

mod alphabet;
mod ended;
mod lister;
mod mark;
mod reader;
mod size;
mod sized;
mod writer;

pub use lister::list_text;
pub use reader::read_text;
pub use size::read_sizing;
pub use writer::put_text;
