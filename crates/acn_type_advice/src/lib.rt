//! What a page says of names and types that are refused: the entry or the component in whose text
//! the fault stands, the first name that differs, the names that there are, and the path that leads
//! nowhere.
#![tactic(auto)]

mod fields;
mod line;
mod names;
mod paths;
mod put;
mod types;

pub use line::put_source_place;
