//! Whether a constraint asks for the ends of what stood before it, by a `<` beside MIN or MAX.

ghost use Rattle.std.specs.Prelude.{◌≡◌, map};
ghost use Rattle.acn_asn_syntax.specs.View.{constraint_view, seen_meet, seen_part, element_view, set_view, meet_view, part_view, meets_of, parts_of};
ghost use Rattle.acn_constraint.specs.Asks as spec;

use acn_asn_syntax::{AsnValue, Constraint, Element, Meet, Part, Set};

/// Whether a constraint asks for the ends of what stood.
pub fn asks_for_ends(constraint: &Constraint) -> bool
    ensures { result ≡ spec.asks (constraint_view constraint.now) }
{
    match constraint {
        Constraint::Set(set) => set_asks(set),
        Constraint::Size(set) => set_asks(set),
        Constraint::Containing(_) => false,
    }
}

// Whether an end of a range is MIN or MAX and left out.
fn end_asks(end: &Option<AsnValue>, out: bool) -> bool
    ensures { result ≡ spec.asks_end end.now out }
{
    match end {
        Some(_) => false,
        None => out,
    }
}

// Whether a set asks for the ends of what stood.
#[cycle(asks)]
#[tactic(auto, unfolding(crate::specs::Asks::asks_set, crate::specs::Asks::asks_meets, crate::specs::Asks::asks_meet, crate::specs::Asks::asks_parts, crate::specs::Asks::asks_part, crate::specs::Asks::asks_element), using(acn_asn_syntax::proofs::Views::set_views))]
fn set_asks(set: &Set) -> bool
    ensures { result ≡ spec.asks_set (set_view set.now) }
{
    match set {
        Set::AllExcept(element) => element_asks(element),
        Set::Union(first, more) => meet_asks(first) || meets_ask(more.items()),
    }
}

#[cycle(asks)]
#[tactic(auto, unfolding(crate::specs::Asks::asks_set, crate::specs::Asks::asks_meets, crate::specs::Asks::asks_meet, crate::specs::Asks::asks_parts, crate::specs::Asks::asks_part, crate::specs::Asks::asks_element), using(acn_asn_syntax::proofs::Views::set_views))]
fn meets_ask(more: &[(bool, Meet)]) -> bool
    ensures { result ≡ spec.asks_meets (meets_of (map seen_meet more.now)) }
{
    for meet in more {
        if meet_asks(&meet.1) {
            return true;
        }
    }
    false
}

#[cycle(asks)]
#[tactic(auto, unfolding(crate::specs::Asks::asks_set, crate::specs::Asks::asks_meets, crate::specs::Asks::asks_meet, crate::specs::Asks::asks_parts, crate::specs::Asks::asks_part, crate::specs::Asks::asks_element), using(acn_asn_syntax::proofs::Views::set_views))]
fn meet_asks(meet: &Meet) -> bool
    ensures { result ≡ spec.asks_meet (meet_view meet.now) }
{
    part_asks(&meet.first) || parts_ask(meet.more.items())
}

#[cycle(asks)]
#[tactic(auto, unfolding(crate::specs::Asks::asks_set, crate::specs::Asks::asks_meets, crate::specs::Asks::asks_meet, crate::specs::Asks::asks_parts, crate::specs::Asks::asks_part, crate::specs::Asks::asks_element), using(acn_asn_syntax::proofs::Views::set_views))]
fn parts_ask(more: &[(bool, Part)]) -> bool
    ensures { result ≡ spec.asks_parts (parts_of (map seen_part more.now)) }
{
    for part in more {
        if part_asks(&part.1) {
            return true;
        }
    }
    false
}

#[cycle(asks)]
#[tactic(auto, unfolding(crate::specs::Asks::asks_set, crate::specs::Asks::asks_meets, crate::specs::Asks::asks_meet, crate::specs::Asks::asks_parts, crate::specs::Asks::asks_part, crate::specs::Asks::asks_element), using(acn_asn_syntax::proofs::Views::set_views))]
fn part_asks(part: &Part) -> bool
    ensures { result ≡ spec.asks_part (part_view part.now) }
{
    match &part.but {
        None => element_asks(&part.element),
        Some(but) => element_asks(&part.element) || element_asks(but),
    }
}

// Whether an element asks for the ends of what stood.
#[cycle(asks)]
#[tactic(auto, unfolding(crate::specs::Asks::asks_set, crate::specs::Asks::asks_meets, crate::specs::Asks::asks_meet, crate::specs::Asks::asks_parts, crate::specs::Asks::asks_part, crate::specs::Asks::asks_element), using(acn_asn_syntax::proofs::Views::set_views))]
fn element_asks(element: &Element) -> bool
    ensures { result ≡ spec.asks_element (element_view element.now) }
{
    match element {
        Element::Value(_) => false,
        Element::Range(range) => end_asks(&range.low, range.low_out)
            || end_asks(&range.high, range.high_out),
        Element::SizeOf(set) => set_asks(set.get()),
        Element::From(set) => set_asks(set.get()),
        Element::Inner(set) => set_asks(set.get()),
    }
}
