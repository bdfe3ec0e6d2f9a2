//! How one site is written: why its attributes, constraints and items can't be written, and what they say of its node.
#![tactic(auto)]

mod ends;
mod items;
mod mapped;
mod numbers;
mod patterns;
mod says;
mod sizes;
mod told;
mod values;
mod widths;

pub use ends::{end_of, ended_by};
pub use items::{field_numbers, item_numbers, names_of};
pub use mapped::bad_mapping;
pub use numbers::{Numbers, numbers_at, too_narrow};
pub use patterns::{bits_given, pattern_attr, pattern_clash};
pub use says::{has_values, is_little, table_attr};
pub use sizes::{characters_at, sizes_at, written_sizes};
pub use values::{least_of, values_of};
pub use widths::{bad_endianness, bad_size};
