//! The notation of trees and values in case files.
//!
//! A tree is written line by line: `root : sequence home 0`, `inserted len 0 : integer 0..255 pos-int 8`,
//! `component data : octets 0..16 slot 0`, `end`. A line `ROLE NAME .. : BODY` is a node in the one around it; SEQUENCE, CHOICE,
//! lists and contained octets go on to their `end`. Parts of a case come in the places of `$1` to `$4`, and a line whose part isn't
//! there is left out. `times LOW HIGH LINE | LINE` stands for its lines once for each number from LOW up to HIGH, with the number
//! in the place of `$i`.
#![tactic(auto)]

mod building;
mod leaf_words;
mod node_words;
mod notation;
mod parts;
mod path_words;
mod sheet;
mod unfit_words;
mod value_reading;
mod value_words;

pub use building::Built;
pub use leaf_words::{push_leaf, push_sized, push_text};
pub use node_words::{
    push_align, push_choice, push_component, push_inserted, push_name, push_sequence, push_tests,
};
pub use path_words::path_in_words;
pub use sheet::Sheet;
pub use unfit_words::unfit_in_words;
pub use value_reading::value_of;
pub use value_words::value_in_words;
