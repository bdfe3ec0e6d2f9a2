//! The parsers of ASN.1 values, constraints and types. Each takes a place among tokens and answers what its definition
//! says of the tokens from there on; it refuses exactly where the definition has no answer.
#![tactic(auto)]

mod bases;
mod heads;
mod sets;
mod types;
mod values;

pub use bases::has_comma;
pub use heads::row_of;
pub use types::type_at;
pub use values::{has, literal, value};
