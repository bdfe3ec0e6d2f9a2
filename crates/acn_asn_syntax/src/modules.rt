//! Modules (X.680 clause 13).

use crate::{AsnType, AsnValue};
use acn_num::{Name, Row};

/// A part of an object identifier.
#[derive(Drop)]
pub enum OidPart {
    /// A word.
    Word(Name),
    /// A number.
    Number(u64),
    /// A number in parentheses.
    Grouped(u64),
}

/// An object identifier (X.680 clause 32).
#[derive(Drop)]
pub struct Oid {
    /// Its parts.
    pub parts: Row<OidPart>,
}

/// How the types of a module are tagged.
#[derive(Clone, Copy)]
pub enum Tagging {
    /// `EXPLICIT`.
    Explicit,
    /// `IMPLICIT`.
    Implicit,
    /// `AUTOMATIC`.
    Automatic,
}

/// What a module exports.
#[derive(Drop)]
pub enum Exports {
    /// `ALL`.
    All,
    /// These names.
    Some(Row<Name>),
}

/// Names that are imported from a module.
#[derive(Drop)]
pub struct Import {
    /// The names.
    pub names: Row<Name>,
    /// The module.
    pub module: Name,
    /// The module's object identifier, if it is written.
    pub oid: Option<Oid>,
}

/// An assignment.
#[derive(Drop)]
pub enum Assign {
    /// A name for a type.
    TypeIs(Name, AsnType),
    /// A name for a value, with its type.
    ValueIs(Name, AsnType, AsnValue),
}

/// A module.
#[derive(Drop)]
pub struct AsnModule {
    /// Its name.
    pub name: Name,
    /// Its object identifier, if it is written.
    pub oid: Option<Oid>,
    /// How its types are tagged, if it is written.
    pub tags: Option<Tagging>,
    /// What it exports, if it is written.
    pub exports: Option<Exports>,
    /// What it imports, if it is written.
    pub imports: Option<Row<Import>>,
    /// Its assignments.
    pub items: Row<Assign>,
}

/// The modules of a file.
#[derive(Drop)]
pub struct AsnModules {
    /// The modules, at least one.
    pub modules: Row<AsnModule>,
}
