//! What stands along a chain, from the base outward.

ghost use Rattle.std.specs.Prelude.{◌≡◌, ◌++◌, IfOk, OnOk, flat_map, map, option_map};
ghost use Rattle.std.specs.List.{list_any};
ghost use Rattle.std.specs.Option.{option_to_list};
ghost use Rattle.acn_asn_syntax.specs.View.{base_view, constraint_view, set_view};
ghost use Rattle.acn_asn_syntax.specs.Mirror.{by_set, by_size};
ghost use Rattle.acn_world.specs.Chained.{chain_view, constraints_view};
ghost use Rattle.acn_world.specs.Viewed.{world_view};
ghost use Rattle.acn_constraint.specs.Constraints as spec;
ghost use Rattle.acn_constraint.specs.Readings.{reading_of};

use crate::evaluate::{Place, Reading, set_in};
use crate::low::{Names, set_low};
use crate::sized::says_size;
use crate::standing::{all_of, gathered, narrowed};
use acn_asn_syntax::{AsnBase, Constraint, Set};
use acn_num::{NoMemory, RangeSet, Row};
use acn_set_elements::NumberNames;
use acn_world::{Chain, World};
use std::alloc::Global;

// Adds the constraint that stands between SEQUENCE and OF, where there is one.
fn push_between<'w>(
    between: &'w Option<Constraint>,
    owner: u32,
    all: &mut Row<(u32, &'w Constraint)>,
) -> Result<(), NoMemory>
    ensures { OnOk result (constraints_view all.new ≡ constraints_view all.old ++ map (λ c. (owner, c)) (option_to_list (option_map constraint_view between.now))) }
{
    match between {
        None => Ok(()),
        Some(constraint) => {
            all.push((owner, constraint))?;
            Ok(())
        }
    }
}

// Adds the constraint between SEQUENCE and OF, where the type is such a list.
fn push_own<'w>(
    base: &'w AsnBase,
    owner: u32,
    all: &mut Row<(u32, &'w Constraint)>,
) -> Result<(), NoMemory>
    ensures { OnOk result (constraints_view all.new ≡ constraints_view all.old ++ spec.own_constraint owner (base_view base.now)) }
{
    match base {
        AsnBase::SequenceOf(between, _) => push_between(between, owner, all),
        AsnBase::Integer(_) => Ok(()),
        AsnBase::Boolean => Ok(()),
        AsnBase::Null => Ok(()),
        AsnBase::Enumerated(_) => Ok(()),
        AsnBase::OctetString => Ok(()),
        AsnBase::BitString => Ok(()),
        AsnBase::Ia5String => Ok(()),
        AsnBase::Sequence(_) => Ok(()),
        AsnBase::Choice(_) => Ok(()),
        AsnBase::Ref(_, _) => Ok(()),
    }
}

// Adds these constraints.
fn push_all<'w>(
    constraints: &[(u32, &'w Constraint)],
    all: &mut Row<(u32, &'w Constraint)>,
) -> Result<(), NoMemory>
    ensures { OnOk result (constraints_view all.new ≡ constraints_view all.old ++ constraints_view constraints.now) }
{
    for constraint in constraints {
        all.push((constraint.0, constraint.1))?;
    }
    Ok(())
}

/// The base of a chain, without its constraints.
#[tactic(auto, using(crate::proofs::Bases::base_level))]
pub fn base_of<'w>(chain: &Chain<'w>) -> &'w AsnBase
    ensures { base_view result.now ≡ spec.base_is (chain_view chain.now) }
{
    &chain.base.base
}

/// The constraints of a chain from the base outward, the one between SEQUENCE and OF first.
pub fn constraints_of<'w>(
    alloc: Global,
    chain: &Chain<'w>,
) -> Result<Row<(u32, &'w Constraint)>, NoMemory>
    ensures { IfOk result (λ all. constraints_view all ≡ spec.constraints_of (chain_view chain.now)) }
{
    let mut all = Row::new(alloc);
    push_own(base_of(chain), chain.module, &mut all)?;
    push_all(chain.constraints.items(), &mut all)?;
    Ok(all)
}

// What the set of a constraint leaves of what stood before it.
fn left_by_set(
    alloc: Global,
    set: &Set,
    place: Place<'_>,
    before: &RangeSet,
) -> Result<RangeSet, NoMemory>
    ensures { IfOk result (λ s. s ≡ spec.left_by (world_view place.entry.world.now) (reading_of place.entry.reading) (place.entry.owner, by_set (set_view set.now)) before.now) }
{
    let inside = set_in(alloc, set, place, before)?;
    before.meet(alloc, &inside)
}

// What SIZE without parentheses leaves of what stood before it.
fn left_by_size(
    alloc: Global,
    set: &Set,
    place: Place<'_>,
    before: &RangeSet,
) -> Result<RangeSet, NoMemory>
    ensures { IfOk result (λ s. s ≡ spec.left_by (world_view place.entry.world.now) (reading_of place.entry.reading) (place.entry.owner, by_size (set_view set.now)) before.now) }
{
    match place.reading {
        Reading::Sizes => left_by_set(alloc, set, place, before),
        Reading::Numbers(_) => before.copy(alloc),
        Reading::Characters => before.copy(alloc),
    }
}

/// What a constraint leaves of what stood before it.
pub fn left_by(
    alloc: Global,
    constraint: &Constraint,
    place: Place<'_>,
    before: &RangeSet,
) -> Result<RangeSet, NoMemory>
    ensures { IfOk result (λ s. s ≡ spec.left_by (world_view place.entry.world.now) (reading_of place.entry.reading) (place.entry.owner, constraint_view constraint.now) before.now) }
{
    match constraint {
        Constraint::Set(set) => left_by_set(alloc, set, place, before),
        Constraint::Size(set) => left_by_size(alloc, set, place, before),
        Constraint::Containing(_) => before.copy(alloc),
    }
}

/// What the constraints leave of what stood before them. What each takes is gathered and taken away
/// at once, at the end and before a constraint that asks for the ends of what stands.
pub fn met(
    alloc: Global,
    constraints: &[(u32, &Constraint)],
    world: &World,
    reading: Reading<'_>,
    before: RangeSet,
) -> Result<RangeSet, NoMemory>
    ensures { IfOk result (λ s. s ≡ spec.met (world_view world.now) (reading_of reading.entry) (constraints_view constraints.now) before) }
{
    let mut standing = all_of(alloc, before);
    for constraint in constraints {
        let owner = constraint.0;
        let place = Place {
            world,
            owner,
            reading,
        };
        standing = narrowed(alloc, constraint.1, place, standing)?;
    }
    gathered(alloc, standing)
}

// The first number of a constraint that is too low.
fn constraint_low(constraint: &Constraint, at: Names<'_>) -> Option<i128>
    ensures { result ≡ spec.low_among (world_view at.entry.world.now) at.entry.names.now at.entry.owner (spec.values_of (constraint_view constraint.now)) }
{
    match constraint {
        Constraint::Set(set) => set_low(set, at),
        Constraint::Size(set) => set_low(set, at),
        Constraint::Containing(_) => None,
    }
}

/// The first number of the constraints that is too low.
#[tactic(auto, using(crate::proofs::Firsts::first_append, crate::proofs::Firsts::option_or_some, crate::proofs::Firsts::option_or_none))]
pub fn first_low<'w>(
    constraints: &[(u32, &Constraint)],
    world: &'w World,
    names: &'w NumberNames<'w>,
) -> Option<i128>
    ensures { result ≡ spec.first (flat_map (spec.low_numbers (world_view world.now) names.now) (constraints_view constraints.now)) }
{
    for constraint in constraints {
        let owner = constraint.0;
        let at = Names {
            world,
            owner,
            names,
        };
        let found = constraint_low(constraint.1, at);
        if found.is_some() {
            return found;
        }
    }
    None
}

// Whether a constraint says SIZE.
fn gives_size(constraint: &Constraint) -> bool
    ensures { result ≡ spec.gives_size (0, constraint_view constraint.now) }
{
    match constraint {
        Constraint::Set(set) => says_size(set),
        Constraint::Size(_) => true,
        Constraint::Containing(_) => false,
    }
}

/// Whether a constraint says SIZE.
pub fn has_size(constraints: &[(u32, &Constraint)]) -> bool
    ensures { result ≡ list_any spec.gives_size (constraints_view constraints.now) }
{
    for constraint in constraints {
        if gives_size(constraint.1) {
            return true;
        }
    }
    false
}
