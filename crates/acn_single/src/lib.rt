//! Whether each determinant of a tree serves one use, so that packets can be put together part by part; or why not.
#![tactic(auto)]

mod characters;
mod lines;
mod single;
mod slots;
mod uses;

pub use acn_extreme_laws::Why;
pub use characters::{least_character, other_character};
pub use single::{Reason, first_unsingle};
pub use slots::Slots;
