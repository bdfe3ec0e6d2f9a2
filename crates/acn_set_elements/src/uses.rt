//! How many identifiers constraints use. Only time rests on it.

use acn_asn_syntax::{AsnRange, AsnValue, Constraint, Element, Meet, Part, Set};

/// So many identifiers are found by going along a list in no more time than it takes to make a map of it.
const FEW: usize = 64;

fn in_value(value: &AsnValue) -> usize {
    match value {
        AsnValue::Ref(_) => 1,
        AsnValue::Number(_, _) => 0,
        AsnValue::True => 0,
        AsnValue::False => 0,
        AsnValue::Null => 0,
        AsnValue::Bits(_) => 0,
        AsnValue::Hex(_) => 0,
        AsnValue::Text(_) => 0,
    }
}

fn in_end(end: &Option<AsnValue>) -> usize {
    match end {
        None => 0,
        Some(value) => in_value(value),
    }
}

fn in_range(range: &AsnRange) -> usize {
    in_end(&range.low).saturating_add(in_end(&range.high))
}

#[cycle(used)]
fn in_set(set: &Set) -> usize {
    match set {
        Set::AllExcept(element) => in_element(element),
        Set::Union(first, more) => in_meet(first).saturating_add(in_meets(more.items())),
    }
}

#[cycle(used)]
fn in_meets(more: &[(bool, Meet)]) -> usize {
    let mut all: usize = 0;
    for meet in more {
        all = all.saturating_add(in_meet(&meet.1));
    }
    all
}

#[cycle(used)]
fn in_meet(meet: &Meet) -> usize {
    in_part(&meet.first).saturating_add(in_parts(meet.more.items()))
}

#[cycle(used)]
fn in_parts(more: &[(bool, Part)]) -> usize {
    let mut all: usize = 0;
    for part in more {
        all = all.saturating_add(in_part(&part.1));
    }
    all
}

#[cycle(used)]
fn in_part(part: &Part) -> usize {
    match &part.but {
        None => in_element(&part.element),
        Some(but) => in_element(&part.element).saturating_add(in_element(but)),
    }
}

#[cycle(used)]
fn in_element(element: &Element) -> usize {
    match element {
        Element::Value(value) => in_value(value),
        Element::Range(range) => in_range(range),
        Element::SizeOf(set) => in_set(set.get()),
        Element::From(set) => in_set(set.get()),
        Element::Inner(set) => in_set(set.get()),
    }
}

fn in_constraint(constraint: &Constraint) -> usize {
    match constraint {
        Constraint::Set(set) => in_set(set),
        Constraint::Size(set) => in_set(set),
        Constraint::Containing(_) => 0,
    }
}

/// Whether these constraints use so many identifiers that a map serves.
pub fn are_many(constraints: &[(u32, &Constraint)]) -> bool {
    let mut all: usize = 0;
    for constraint in constraints {
        all = all.saturating_add(in_constraint(constraint.1));
    }
    all > FEW
}
