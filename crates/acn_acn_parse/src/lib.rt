//! The parsers of ACN modules and of mapping tables: each answers the one proper tree whose tokens it is given.
#![tactic(auto)]

mod attributes;
mod fields;
mod laws;
mod maps;
mod modules;
mod parse;
mod words;

pub use laws::one_proper_tree;
pub use maps::parse_map;
pub use parse::parse_acn;
