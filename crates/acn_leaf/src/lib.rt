//! The rules that leaves of a packet's grammar keep, and how long their codes are.
#![tactic(auto)]

mod item_blocks;
mod leaf_rules;
mod lengths;
mod line_blocks;
mod names;
mod near;
mod number_rules;
mod numbers;
mod size_rules;
mod table_rules;

pub use leaf_rules::{num_fine, same_text};
pub use lengths::{code_lengths, fixed_width, width};
pub use names::names_differ;
pub use number_rules::{begins_number, can_be_little, flag_patterns_fine, is_number, is_range};
pub use numbers::numbers_differ;
pub use size_rules::{is_least, is_terminator, list_fine, sizing_fine, text_fine};
pub use table_rules::one_to_one_in;
