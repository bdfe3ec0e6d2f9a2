//! How numbers, patterns and sizes are written where ACN's attributes say so: which coding `size` and `encoding` give,
//! which numbers it can write, what a mapping table maps, and what is left of a set.
#![tactic(auto)]

mod coding;
mod drawing;
mod items;
mod left;
mod literal;
mod table;

pub use coding::{Coding, coding_of, fits, numbers};
pub use items::numbers_of;
pub use left::{least_lost, left_of};
pub use literal::{bit_count, count_bits, pattern_of};
pub use table::{keys_to, line_of, table_fault};
