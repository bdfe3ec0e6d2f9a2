//! The leaf that a site with numbers, or of a text, is: its permitted numbers, its coding, its items and its table.
#![tactic(auto)]

mod items;
mod leaf;
mod text;
mod width;

pub use leaf::{leaf_at, null_leaf};
pub use text::{Characters, characters_written};
pub use width::{high_end, least_width, low_end, range_width};
