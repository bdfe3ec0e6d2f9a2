//! The trees of ACN modules and of mapping tables, as they are written, and their tokens.
#![tactic(auto)]

mod maps;
mod modules;

pub use maps::{MapLine, MapTable, MapTables, Signed};
pub use modules::{
    AcnEntry, AcnField, AcnModule, AcnModules, AcnPath, Alignment, Attr, Condition, Encoding,
    Endianness, FieldKind, Literal, Param, ParamKind, SizeAttr,
};
