//! The trees of ASN.1 modules, as they are written, and the tokens of a tree.
#![tactic(auto)]

mod modules;
mod sets;
mod types;
mod values;

pub use modules::{AsnModule, AsnModules, Assign, Exports, Import, Oid, OidPart, Tagging};
pub use sets::{AsnRange, Element, Meet, Part, Set};
pub use types::{
    Alternative, AsnBase, AsnType, Component, Constraint, Item, Named, Rest, Tag, TagClass, TagMode,
};
pub use values::AsnValue;
