//! The parser of ASN.1 modules: it answers the one proper tree whose tokens it is given.
#![tactic(auto)]

mod headers;
mod laws;
mod modules;
mod parse;

pub use laws::one_proper_tree;
pub use parse::parse_asn;
