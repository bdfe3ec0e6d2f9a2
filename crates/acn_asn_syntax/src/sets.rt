//! Sets of values in constraints (X.680 clause 50).

use crate::AsnValue;
use acn_num::{Boxed, Row};

/// A set of values.
#[cycle(set)]
#[derive(Drop)]
pub enum Set {
    /// `ALL EXCEPT` an element.
    AllExcept(Element),
    /// Meets joined by `|` or `UNION`. With each other than the first stands whether it is the word.
    Union(Meet, Row<(bool, Meet)>),
}

/// Parts joined by `^` or `INTERSECTION`.
#[cycle(set)]
#[derive(Drop)]
pub struct Meet {
    /// The first part.
    pub first: Part,
    /// The others, each with whether the word stands before it.
    pub more: Row<(bool, Part)>,
}

/// An element, and what `EXCEPT` takes from it.
#[cycle(set)]
#[derive(Drop)]
pub struct Part {
    /// The element.
    pub element: Element,
    /// What is taken from it.
    pub but: Option<Element>,
}

/// One element of a set.
#[cycle(set)]
#[derive(Drop)]
pub enum Element {
    /// A value.
    Value(AsnValue),
    /// A range of values.
    Range(AsnRange),
    /// `SIZE` and a set in parentheses.
    SizeOf(Boxed<Set>),
    /// `FROM` and a set in parentheses.
    From(Boxed<Set>),
    /// A set in parentheses.
    Inner(Boxed<Set>),
}

/// A range of values (X.680 clause 51.4).
#[derive(Drop)]
pub struct AsnRange {
    /// The lower end, or none for `MIN`.
    pub low: Option<AsnValue>,
    /// Whether `<` leaves the lower end out.
    pub low_out: bool,
    /// The upper end, or none for `MAX`.
    pub high: Option<AsnValue>,
    /// Whether `<` leaves the upper end out.
    pub high_out: bool,
}
