//! Numbers, sets of numbers, lists and names, which contracts see as plain data.
#![tactic(auto)]

mod bit_list;
mod boxed;
mod limits;
mod memory;
mod name;
mod path;
mod range_set;
mod row;
mod whole;
mod widths;

pub use bit_list::BitList;
pub use boxed::Boxed;
pub use limits::{
    BOTTOM, GREATEST_NUMBER, LEAST_NUMBER, MOST_FILE_BYTES, MOST_SIZE, MOST_STEPS, TOP,
};
pub use memory::NoMemory;
pub use name::Name;
pub use path::Path;
pub use range_set::{RangeSet, places_name_each_number_once, same_numbers_same_set};
pub use row::Row;
pub use whole::{greater, is_at_most, less};
pub use widths::{bits_for, digits_for, octets_for, signed_octets_for};
