//! A writer in place: each call is one event of writing a value, and comes to pass or halts with
//! nothing changed. It takes no memory. (This profile's own.)
#![tactic(auto)]

mod code;
mod contents;
mod cursor;
mod frame;
mod halt;
mod leaf;
mod plain;
mod slots;
mod text;
mod writer;

pub use halt::{Halt, Halted};
pub use writer::Writer;
