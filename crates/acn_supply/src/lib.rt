//! The bytes of an input that are in hand, which is read up to a limit, and its lines.
#![tactic(auto)]

mod lines;
mod supply;
mod window;

pub use lines::{Line, MOST_LINE_BYTES, NoLine, read_line};
pub use supply::{More, Supply};
pub use window::MOST_IN_HAND;
