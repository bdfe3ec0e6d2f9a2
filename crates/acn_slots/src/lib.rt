//! Determinants: what the paths of ACN lead to, from the scope in which they are read.
#![tactic(auto)]

mod fields;
mod frame;
mod listed;
mod origin;
mod placed;
mod places;
mod plain;
mod rows;
mod scope;
mod slots;

pub use fields::{
    Field, Use, component_name, component_rest, component_type, name_in_text, no_use, use_of,
};
pub use frame::{
    Frame, Step, base_of, braces_at, braces_module, braces_origin, is_optional, kind_chain, sort_of,
};
pub use listed::Listed;
pub use origin::Origin;
pub use places::shared;
pub use plain::PlainTypes;
pub use rows::{copied, extended};
pub use scope::{Scope, leads};
pub use slots::{Lead, Slot, Sort};
