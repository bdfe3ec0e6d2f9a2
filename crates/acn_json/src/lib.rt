//! Lines of JSON: the text of a value of a tree, and the value of a text.
#![tactic(auto)]

mod json_fault;
mod laws;
mod members;
mod read;
mod spots;
mod strings;
mod text;
mod trouble;
mod write;

pub use json_fault::JsonFault;
pub use laws::lines_give_the_value;
pub use members::may_be_absent;
pub use read::{MOST_JSON_BYTES, from_line};
pub use strings::{bits_of, characters_of, is_same, item_of, octets_of};
pub use text::{all_plain, digit, put, put_bits, put_octet, put_quoted};
pub use trouble::Trouble;
pub use write::{item_name, put_comma, put_key, put_null, to_line, write_number};
