//! The set that a constraint leaves of what stood before it.
//!
//! Sets nest as deep as parentheses do, which is 64 levels at most.

ghost use Rattle.std.specs.Prelude.{◌≡◌, [], ◌∷◌, IfOk, map};
ghost use Rattle.acn_asn_syntax.specs.View.{seen_meet, seen_part, element_view, set_view, meet_view, part_view, meets_of, parts_of};
ghost use Rattle.acn_world.specs.Viewed.{world_view};
ghost use Rattle.acn_constraint.specs.Readings.{reading_of};
ghost use Rattle.acn_constraint.specs.Sets as sets;
ghost use Rattle.acn_num.specs.Ranges.{except};
ghost use Rattle.acn_constraint.specs.Each.{each_meet, everything, each_outside, IsWithoutAll};

use crate::letters::letters;
use crate::sized::element_says_size;
use crate::span::{between, single};
use acn_asn_syntax::{AsnRange, AsnValue, Element, Meet, Part, Set};
use acn_num::{BOTTOM, NoMemory, RangeSet, TOP};
use acn_set_elements::{NumberNames, character_in, number_in, plain_number_in, text_in};
use acn_world::World;
use std::alloc::Global;

/// Of what the numbers of a set are.
#[derive(Clone, Copy)]
pub enum Reading<'n> {
    /// Values of an INTEGER with these named numbers.
    Numbers(&'n NumberNames<'n>),
    /// Sizes.
    Sizes,
    /// Characters.
    Characters,
}

/// Where a set stands and how it is read.
#[derive(Clone, Copy)]
pub struct Place<'w> {
    pub world: &'w World,
    pub owner: u32,
    pub reading: Reading<'w>,
}

// The set of one value.
fn value_set(alloc: Global, place: Place<'_>, value: &AsnValue) -> Result<RangeSet, NoMemory>
    ensures { IfOk result (λ s. s ≡ sets.value_set (world_view place.entry.world.now) place.entry.owner (reading_of place.entry.reading) value.now) }
{
    let number = match place.reading {
        Reading::Numbers(names) => number_in(place.world, names, place.owner, value),
        Reading::Sizes => plain_number_in(place.world, place.owner, value),
        Reading::Characters => {
            return match text_in(place.world, place.owner, value) {
                Some(token) => letters(alloc, token),
                None => Ok(RangeSet::empty(alloc)),
            };
        }
    };
    match number {
        Some(number) => single(alloc, &number),
        None => Ok(RangeSet::empty(alloc)),
    }
}

// The number of a written end of a range.
fn end_number(place: Place<'_>, value: &AsnValue) -> Option<i128>
    ensures { result ≡ sets.end_number (world_view place.entry.world.now) place.entry.owner (reading_of place.entry.reading) value.now }
{
    match place.reading {
        Reading::Numbers(names) => number_in(place.world, names, place.owner, value),
        Reading::Sizes => plain_number_in(place.world, place.owner, value),
        Reading::Characters => character_in(place.world, place.owner, value),
    }
}

// The number of an end of a range: MIN and MAX are what stood before.
fn end_of(place: Place<'_>, stood: Option<i128>, end: &Option<AsnValue>) -> Option<i128>
    ensures { result ≡ sets.end_of (sets.end_number (world_view place.entry.world.now) place.entry.owner (reading_of place.entry.reading)) stood end.now }
{
    match end {
        Some(value) => end_number(place, value),
        None => stood,
    }
}

fn range_in(
    alloc: Global,
    place: Place<'_>,
    range: &AsnRange,
    before: &RangeSet,
) -> Result<RangeSet, NoMemory>
    ensures { IfOk result (λ s. s ≡ sets.range_in (sets.end_number (world_view place.entry.world.now) place.entry.owner (reading_of place.entry.reading)) range.now before.now) }
{
    let low = end_of(place, before.least(), &range.low);
    let high = end_of(place, before.greatest(), &range.high);
    between(alloc, &low, range.low_out, &high, range.high_out)
}

// Whether what EXCEPT takes from is built of SIZE, which says nothing of characters.
fn is_aside(reading: Reading<'_>, element: &Element) -> bool
    ensures { result ≡ sets.is_aside (reading_of reading.entry) (element_view element.now) }
{
    match reading {
        Reading::Numbers(_) => false,
        Reading::Sizes => false,
        Reading::Characters => element_says_size(element),
    }
}

// The numbers outside a set.
fn outside_of(alloc: Global, set: &RangeSet) -> Result<RangeSet, NoMemory>
    ensures { IfOk result (λ s. s ≡ except everything set.now) }
{
    let all = RangeSet::one(alloc, BOTTOM, TOP)?;
    all.except(alloc, set)
}

// What a set holds outside another.
fn without_one(alloc: Global, set: &RangeSet, other: &RangeSet) -> Result<RangeSet, NoMemory>
    ensures { IfOk result (λ s. IsWithoutAll set.now (other.now ∷ []) s) }
{
    let left = set.except(alloc, other)?;
    let _set = set.ranges();
    let _left = left.ranges();
    Ok(left)
}

/// What a set holds outside all others.
pub fn without_all(alloc: Global, set: &RangeSet, others: &[RangeSet]) -> Result<RangeSet, NoMemory>
    ensures { IfOk result (λ s. IsWithoutAll set.now others.now s) }
{
    if others.len() == 1 {
        return without_one(alloc, set, &others[0]);
    }
    let none = RangeSet::empty(alloc);
    let joined = none.union_all(alloc, others)?;
    let left = set.except(alloc, &joined)?;
    let _set = set.ranges();
    let _left = left.ranges();
    Ok(left)
}

/// What a set leaves of what stood before it.
#[cycle(evaluate)]
#[tactic(auto, unfolding(crate::specs::Sets::set_in, crate::specs::Sets::meets_in, crate::specs::Sets::meet_in, crate::specs::Sets::parts_in, crate::specs::Sets::part_in, crate::specs::Sets::element_in), using(acn_asn_syntax::proofs::Views::set_views, crate::proofs::Unions::joined))]
pub fn set_in(
    alloc: Global,
    set: &Set,
    place: Place<'_>,
    before: &RangeSet,
) -> Result<RangeSet, NoMemory>
    ensures { IfOk result (λ s. s ≡ sets.set_in (world_view place.entry.world.now) place.entry.owner (reading_of place.entry.reading) (set_view set.now) before.now) }
{
    match set {
        Set::AllExcept(element) => {
            let taken = element_in(alloc, element, place, before)?;
            before.except(alloc, &taken)
        }
        Set::Union(first, more) => {
            let found = meet_in(alloc, first, place, before)?;
            let others = meets_in(alloc, more.items(), place, before)?;
            found.union_all(alloc, others.as_slice())
        }
    }
}

#[cycle(evaluate)]
#[tactic(auto, unfolding(crate::specs::Sets::set_in, crate::specs::Sets::meets_in, crate::specs::Sets::meet_in, crate::specs::Sets::parts_in, crate::specs::Sets::part_in, crate::specs::Sets::element_in), using(acn_asn_syntax::proofs::Views::set_views))]
fn meets_in(
    alloc: Global,
    more: &[(bool, Meet)],
    place: Place<'_>,
    before: &RangeSet,
) -> Result<Vec<RangeSet>, NoMemory>
    ensures { IfOk result (λ all. all.items ≡ each_meet (world_view place.entry.world.now) place.entry.owner (reading_of place.entry.reading) (meets_of (map seen_meet more.now)) before.now) }
{
    let mut all = Vec::new(alloc);
    for meet in more {
        let next = meet_in(alloc, &meet.1, place, before)?;
        all.push(next)?;
    }
    Ok(all)
}

#[cycle(evaluate)]
#[tactic(auto, unfolding(crate::specs::Sets::set_in, crate::specs::Sets::meets_in, crate::specs::Sets::meet_in, crate::specs::Sets::parts_in, crate::specs::Sets::part_in, crate::specs::Sets::element_in), using(acn_asn_syntax::proofs::Views::set_views))]
fn meet_in(
    alloc: Global,
    meet: &Meet,
    place: Place<'_>,
    before: &RangeSet,
) -> Result<RangeSet, NoMemory>
    ensures { IfOk result (λ s. s ≡ sets.meet_in (world_view place.entry.world.now) place.entry.owner (reading_of place.entry.reading) (meet_view meet.now) before.now) }
{
    let _before = before.ranges();
    let more = meet.more.items();
    if more.is_empty() {
        return part_in(alloc, &meet.first, place, before);
    }
    let found = part_in(alloc, &meet.first, place, before)?;
    let outside = outsides(alloc, more, place, before)?;
    without_all(alloc, &found, outside.as_slice())
}

// The numbers outside each part, since a meet of many is what is left without the union of these.
#[cycle(evaluate)]
#[tactic(auto, unfolding(crate::specs::Sets::set_in, crate::specs::Sets::meets_in, crate::specs::Sets::meet_in, crate::specs::Sets::parts_in, crate::specs::Sets::part_in, crate::specs::Sets::element_in), using(acn_asn_syntax::proofs::Views::set_views))]
fn outsides(
    alloc: Global,
    more: &[(bool, Part)],
    place: Place<'_>,
    before: &RangeSet,
) -> Result<Vec<RangeSet>, NoMemory>
    ensures { IfOk result (λ all. all.items ≡ each_outside (world_view place.entry.world.now) place.entry.owner (reading_of place.entry.reading) (parts_of (map seen_part more.now)) before.now) }
{
    let mut all = Vec::new(alloc);
    for part in more {
        let next = part_in(alloc, &part.1, place, before)?;
        let outside = outside_of(alloc, &next)?;
        all.push(outside)?;
    }
    Ok(all)
}

#[cycle(evaluate)]
#[tactic(auto, unfolding(crate::specs::Sets::set_in, crate::specs::Sets::meets_in, crate::specs::Sets::meet_in, crate::specs::Sets::parts_in, crate::specs::Sets::part_in, crate::specs::Sets::element_in), using(acn_asn_syntax::proofs::Views::set_views))]
fn part_in(
    alloc: Global,
    part: &Part,
    place: Place<'_>,
    before: &RangeSet,
) -> Result<RangeSet, NoMemory>
    ensures { IfOk result (λ s. s ≡ sets.part_in (world_view place.entry.world.now) place.entry.owner (reading_of place.entry.reading) (part_view part.now) before.now) }
{
    match &part.but {
        None => element_in(alloc, &part.element, place, before),
        Some(but) => {
            if is_aside(place.reading, &part.element) {
                return before.copy(alloc);
            }
            let found = element_in(alloc, &part.element, place, before)?;
            let taken = element_in(alloc, but, place, before)?;
            found.except(alloc, &taken)
        }
    }
}

#[cycle(evaluate)]
#[tactic(auto, unfolding(crate::specs::Sets::set_in, crate::specs::Sets::meets_in, crate::specs::Sets::meet_in, crate::specs::Sets::parts_in, crate::specs::Sets::part_in, crate::specs::Sets::element_in), using(acn_asn_syntax::proofs::Views::set_views))]
fn element_in(
    alloc: Global,
    element: &Element,
    place: Place<'_>,
    before: &RangeSet,
) -> Result<RangeSet, NoMemory>
    ensures { IfOk result (λ s. s ≡ sets.element_in (world_view place.entry.world.now) place.entry.owner (reading_of place.entry.reading) (element_view element.now) before.now) }
{
    match element {
        Element::Value(value) => value_set(alloc, place, value),
        Element::Range(range) => range_in(alloc, place, range, before),
        Element::SizeOf(set) => match place.reading {
            Reading::Sizes => set_in(alloc, set.get(), place, before),
            Reading::Numbers(_) => before.copy(alloc),
            Reading::Characters => before.copy(alloc),
        },
        Element::From(set) => match place.reading {
            Reading::Characters => set_in(alloc, set.get(), place, before),
            Reading::Numbers(_) => before.copy(alloc),
            Reading::Sizes => before.copy(alloc),
        },
        Element::Inner(set) => set_in(alloc, set.get(), place, before),
    }
}
