//! Types and their constraints (X.680 clauses 17 to 31).

use crate::{AsnValue, Set};
use acn_num::{Boxed, Name, Row};

/// The class of a tag.
#[derive(Clone, Copy)]
pub enum TagClass {
    /// `UNIVERSAL`.
    Universal,
    /// `APPLICATION`.
    Application,
    /// `PRIVATE`.
    Private,
}

/// The mode of a tag.
#[derive(Clone, Copy)]
pub enum TagMode {
    /// `IMPLICIT`.
    Implicit,
    /// `EXPLICIT`.
    Explicit,
}

/// A tag (X.680 clause 31).
#[derive(Clone, Copy)]
pub struct Tag {
    /// Its class, if it is written.
    pub class: Option<TagClass>,
    /// Its number.
    pub number: u64,
    /// Its mode, if it is written.
    pub mode: Option<TagMode>,
}

/// A named number of INTEGER (X.680 clause 19).
#[derive(Drop)]
pub struct Named {
    /// The name.
    pub name: Name,
    /// Whether a minus stands before the number.
    pub negative: bool,
    /// The digits' number.
    pub number: u64,
}

/// An item of ENUMERATED (X.680 clause 20).
#[derive(Drop)]
pub struct Item {
    /// The name.
    pub name: Name,
    /// Its number, if it is written: whether a minus stands before it, and the digits' number.
    pub number: Option<(bool, u64)>,
}

/// A type with its tag and its constraints.
#[cycle(of)]
#[derive(Drop)]
pub struct AsnType {
    /// The tag, if there is one.
    pub tag: Option<Tag>,
    /// The type without tag and constraints.
    pub base: AsnBase,
    /// The constraints behind it.
    pub constraints: Row<Constraint>,
}

/// A type without tag and constraints.
#[cycle(of)]
#[derive(Drop)]
pub enum AsnBase {
    /// `BOOLEAN`.
    Boolean,
    /// `NULL`.
    Null,
    /// `INTEGER`, with its named numbers if they are written.
    Integer(Option<Row<Named>>),
    /// `ENUMERATED` with its items.
    Enumerated(Row<Item>),
    /// `OCTET STRING`.
    OctetString,
    /// `BIT STRING`.
    BitString,
    /// `IA5String`.
    Ia5String,
    /// `SEQUENCE` with its components.
    Sequence(Row<Component>),
    /// `SEQUENCE OF` a type, with the constraint between the two words.
    SequenceOf(Option<Constraint>, Boxed<AsnType>),
    /// `CHOICE` with its alternatives.
    Choice(Row<Alternative>),
    /// A type by its name, with the name of a module if it is written.
    Ref(Option<Name>, Name),
}

/// A constraint (X.680 clause 49).
#[cycle(of)]
#[derive(Drop)]
pub enum Constraint {
    /// A set in parentheses.
    Set(Set),
    /// `SIZE` and a set in parentheses, without parentheses around both.
    Size(Set),
    /// `CONTAINING` a type, in parentheses (X.682 clause 11).
    Containing(Boxed<AsnType>),
}

/// What stands behind the type of a component.
#[derive(Drop)]
pub enum Rest {
    /// Nothing.
    Required,
    /// `OPTIONAL`.
    Optional,
    /// `DEFAULT` and a value.
    Default(AsnValue),
}

/// A component of SEQUENCE (X.680 clause 25).
#[cycle(of)]
#[derive(Drop)]
pub struct Component {
    /// The name.
    pub name: Name,
    /// The type.
    pub of: AsnType,
    /// Whether it may be absent.
    pub rest: Rest,
}

/// An alternative of CHOICE (X.680 clause 29).
#[cycle(of)]
#[derive(Drop)]
pub struct Alternative {
    /// The name.
    pub name: Name,
    /// The type.
    pub of: AsnType,
}
