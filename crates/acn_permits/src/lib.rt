//! What a node of a tree permits, in words: its numbers, sizes and characters, and the names of its
//! items, components and alternatives.
#![tactic(auto)]

mod names;
mod permitted;
mod place;
mod sets;

pub use names::{child_names, put_item_names};
pub use permitted::{put_characters, put_numbers, put_pattern, put_sizes};
pub use place::node_on;
pub use sets::put_ranges;
