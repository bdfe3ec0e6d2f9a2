//! The first written number below the least one that can be kept.

ghost use Rattle.std.specs.Prelude.{◌≡◌, map, negsuc, int_lt};
ghost use Rattle.acn_asn_syntax.specs.View.{seen_meet, seen_part, constraint_view, element_view, set_view, meet_view, part_view, meets_of, parts_of};
ghost use Rattle.acn_world.specs.Viewed.{world_view};
ghost use Rattle.acn_constraint.specs.Constraints as spec;

use acn_asn_syntax::{AsnValue, Constraint, Element, Meet, Part, Set};
use acn_num::LEAST_NUMBER;
use acn_set_elements::{NumberNames, number_in};
use acn_world::World;

/// Where numbers are read, with the names that stand for numbers.
#[derive(Clone, Copy)]
pub struct Names<'w> {
    pub world: &'w World,
    pub owner: u32,
    pub names: &'w NumberNames<'w>,
}

// Whether a number is below the least one that can be kept.
fn is_low(x: &i128) -> bool
    ensures { result ≡ int_lt x.now (negsuc 9223372036854775807) }
{
    *x < LEAST_NUMBER
}

// The number of a value, where it is too low.
fn low_number(at: Names<'_>, value: &AsnValue) -> Option<i128>
    ensures { result ≡ spec.low_number (world_view at.entry.world.now) at.entry.names.now at.entry.owner value.now }
{
    let number = number_in(at.world, at.names, at.owner, value)?;
    if is_low(&number) { Some(number) } else { None }
}

fn end_low(at: Names<'_>, end: &Option<AsnValue>) -> Option<i128>
    ensures { result ≡ spec.low_among (world_view at.entry.world.now) at.entry.names.now at.entry.owner (spec.end_values end.now) }
{
    match end {
        Some(value) => low_number(at, value),
        None => None,
    }
}

/// The first number of a set that is too low.
#[cycle(low)]
#[tactic(auto, unfolding(crate::specs::Constraints::set_values, crate::specs::Constraints::meets_values, crate::specs::Constraints::meet_values, crate::specs::Constraints::parts_values, crate::specs::Constraints::part_values, crate::specs::Constraints::element_values), using(acn_asn_syntax::proofs::Views::set_views, crate::proofs::Firsts::low_append))]
pub fn set_low(set: &Set, at: Names<'_>) -> Option<i128>
    ensures { result ≡ spec.low_among (world_view at.entry.world.now) at.entry.names.now at.entry.owner (spec.set_values (set_view set.now)) }
{
    match set {
        Set::AllExcept(element) => element_low(element, at),
        Set::Union(first, more) => meet_low(first, at).or(meets_low(more.items(), at)),
    }
}

#[cycle(low)]
#[tactic(auto, unfolding(crate::specs::Constraints::set_values, crate::specs::Constraints::meets_values, crate::specs::Constraints::meet_values, crate::specs::Constraints::parts_values, crate::specs::Constraints::part_values, crate::specs::Constraints::element_values), using(acn_asn_syntax::proofs::Views::set_views, crate::proofs::Firsts::low_append))]
fn meets_low(more: &[(bool, Meet)], at: Names<'_>) -> Option<i128>
    ensures { result ≡ spec.low_among (world_view at.entry.world.now) at.entry.names.now at.entry.owner (spec.meets_values (meets_of (map seen_meet more.now))) }
{
    for meet in more {
        let found = meet_low(&meet.1, at);
        if found.is_some() {
            return found;
        }
    }
    None
}

#[cycle(low)]
#[tactic(auto, unfolding(crate::specs::Constraints::set_values, crate::specs::Constraints::meets_values, crate::specs::Constraints::meet_values, crate::specs::Constraints::parts_values, crate::specs::Constraints::part_values, crate::specs::Constraints::element_values), using(acn_asn_syntax::proofs::Views::set_views, crate::proofs::Firsts::low_append))]
fn meet_low(meet: &Meet, at: Names<'_>) -> Option<i128>
    ensures { result ≡ spec.low_among (world_view at.entry.world.now) at.entry.names.now at.entry.owner (spec.meet_values (meet_view meet.now)) }
{
    part_low(&meet.first, at).or(parts_low(meet.more.items(), at))
}

#[cycle(low)]
#[tactic(auto, unfolding(crate::specs::Constraints::set_values, crate::specs::Constraints::meets_values, crate::specs::Constraints::meet_values, crate::specs::Constraints::parts_values, crate::specs::Constraints::part_values, crate::specs::Constraints::element_values), using(acn_asn_syntax::proofs::Views::set_views, crate::proofs::Firsts::low_append))]
fn parts_low(more: &[(bool, Part)], at: Names<'_>) -> Option<i128>
    ensures { result ≡ spec.low_among (world_view at.entry.world.now) at.entry.names.now at.entry.owner (spec.parts_values (parts_of (map seen_part more.now))) }
{
    for part in more {
        let found = part_low(&part.1, at);
        if found.is_some() {
            return found;
        }
    }
    None
}

#[cycle(low)]
#[tactic(auto, unfolding(crate::specs::Constraints::set_values, crate::specs::Constraints::meets_values, crate::specs::Constraints::meet_values, crate::specs::Constraints::parts_values, crate::specs::Constraints::part_values, crate::specs::Constraints::element_values), using(acn_asn_syntax::proofs::Views::set_views, crate::proofs::Firsts::low_append))]
fn part_low(part: &Part, at: Names<'_>) -> Option<i128>
    ensures { result ≡ spec.low_among (world_view at.entry.world.now) at.entry.names.now at.entry.owner (spec.part_values (part_view part.now)) }
{
    match &part.but {
        None => element_low(&part.element, at),
        Some(but) => element_low(&part.element, at).or(element_low(but, at)),
    }
}

#[cycle(low)]
#[tactic(auto, unfolding(crate::specs::Constraints::set_values, crate::specs::Constraints::meets_values, crate::specs::Constraints::meet_values, crate::specs::Constraints::parts_values, crate::specs::Constraints::part_values, crate::specs::Constraints::element_values), using(acn_asn_syntax::proofs::Views::set_views, crate::proofs::Firsts::low_append))]
fn element_low(element: &Element, at: Names<'_>) -> Option<i128>
    ensures { result ≡ spec.low_among (world_view at.entry.world.now) at.entry.names.now at.entry.owner (spec.element_values (element_view element.now)) }
{
    match element {
        Element::Value(value) => low_number(at, value),
        Element::Range(range) => end_low(at, &range.low).or(end_low(at, &range.high)),
        Element::SizeOf(set) => set_low(set.get(), at),
        Element::From(set) => set_low(set.get(), at),
        Element::Inner(set) => set_low(set.get(), at),
    }
}
