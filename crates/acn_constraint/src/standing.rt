//! What stands behind some constraints in series.
//!
//! The numbers stay as they were. What a constraint leaves of them is one range mostly, and else it is noted what it
//! takes: so none costs a walk over the numbers, but one that asks for their ends where something is to be taken away.

ghost use Rattle.std.specs.Prelude.{◌≡◌, IfOk, Some};
ghost use Rattle.acn_asn_syntax.specs.View.{constraint_view};
ghost use Rattle.acn_world.specs.Viewed.{world_view};
ghost use Rattle.acn_constraint.specs.Readings.{reading_of};
ghost use Rattle.acn_constraint.specs.Hull.{IsHull};
ghost use Rattle.acn_constraint.specs.Series.{IsGathered, IsKept, IsNarrowed, IsReady, IsWhole, within};

use crate::along::left_by;
use crate::asks::asks_for_ends;
use crate::borders::{first_from, last_to};
use crate::evaluate::{Place, without_all};
use crate::span::{around, between};
use acn_asn_syntax::Constraint;
use acn_num::{NoMemory, RangeSet};
use std::alloc::Global;

/// What stands: the numbers that are inside, without what is to be taken away yet.
#[derive(Drop)]
pub struct Standing {
    /// What stood once.
    pub numbers: RangeSet,
    /// What was left of it by constraints that leave one range.
    pub inside: Option<RangeSet>,
    /// What other constraints take.
    pub taken: Vec<RangeSet>,
}

/// A set of which all stands.
pub fn all_of(alloc: Global, numbers: RangeSet) -> Standing
    ensures { IsWhole numbers result }
{
    let _numbers = numbers.ranges();
    Standing {
        numbers,
        inside: None,
        taken: Vec::new(alloc),
    }
}

// The numbers of a set that are inside.
fn inside_of(
    alloc: Global,
    numbers: RangeSet,
    inside: &Option<RangeSet>,
) -> Result<RangeSet, NoMemory>
    ensures { IfOk result (λ s. s ≡ within inside.now numbers) }
{
    match inside {
        None => Ok(numbers),
        Some(set) => numbers.meet(alloc, set),
    }
}

/// What stands, as one set.
pub fn gathered(alloc: Global, standing: Standing) -> Result<RangeSet, NoMemory>
    ensures { IfOk result (λ s. IsGathered standing s) }
{
    let stood = inside_of(alloc, standing.numbers, &standing.inside)?;
    if standing.taken.is_empty() {
        return Ok(stood);
    }
    without_all(alloc, &stood, standing.taken.as_slice())
}

// What stands, gathered where the constraint asks for its ends.
fn ready(alloc: Global, constraint: &Constraint, standing: Standing) -> Result<Standing, NoMemory>
    ensures { IfOk result (λ s. IsReady (constraint_view constraint.now) standing s) }
{
    if standing.taken.is_empty() || !asks_for_ends(constraint) {
        return Ok(standing);
    }
    let numbers = gathered(alloc, standing)?;
    Ok(all_of(alloc, numbers))
}

// The numbers from the least to the greatest of those that are inside a set.
fn around_inside(alloc: Global, numbers: &RangeSet, inside: &RangeSet) -> Result<RangeSet, NoMemory>
    ensures { IfOk result (λ s. IsHull (within (Some inside.now) numbers.now) s) }
{
    match inside.ranges() {
        [range] => {
            let low = first_from(numbers.ranges(), &range.0);
            let high = last_to(numbers.ranges(), &range.1);
            between(alloc, &low, false, &high, false)
        }
        _ => {
            let both = numbers.meet(alloc, inside)?;
            around(alloc, &both)
        }
    }
}

// The numbers from the least to the greatest of those that are inside.
fn around_all(
    alloc: Global,
    numbers: &RangeSet,
    inside: &Option<RangeSet>,
) -> Result<RangeSet, NoMemory>
    ensures { IfOk result (λ s. IsHull (within inside.now numbers.now) s) }
{
    match inside {
        None => around(alloc, numbers),
        Some(set) => around_inside(alloc, numbers, set),
    }
}

// What stands, of which these numbers are left of those around it.
fn kept(
    alloc: Global,
    standing: Standing,
    stood: &RangeSet,
    left: RangeSet,
) -> Result<Standing, NoMemory>
    ensures { IfOk result (λ s. IsKept standing stood.now left s) }
{
    if left.ranges().len() < 2 {
        let inside = inside_of(alloc, left, &standing.inside)?;
        return Ok(Standing {
            numbers: standing.numbers,
            inside: Some(inside),
            taken: standing.taken,
        });
    }
    let mut taken = standing.taken;
    let next = stood.except(alloc, &left)?;
    taken.push(next)?;
    Ok(Standing {
        numbers: standing.numbers,
        inside: standing.inside,
        taken,
    })
}

/// What a constraint leaves of what stands.
pub fn narrowed(
    alloc: Global,
    constraint: &Constraint,
    place: Place<'_>,
    standing: Standing,
) -> Result<Standing, NoMemory>
    ensures { IfOk result (λ s. IsNarrowed (world_view place.entry.world.now) (reading_of place.entry.reading) (place.entry.owner, constraint_view constraint.now) standing s) }
{
    if standing.inside.is_none()
        && standing.taken.is_empty()
        && standing.numbers.ranges().len() < 2
    {
        let left = left_by(alloc, constraint, place, &standing.numbers)?;
        return Ok(all_of(alloc, left));
    }
    let ready = ready(alloc, constraint, standing)?;
    let stood = around_all(alloc, &ready.numbers, &ready.inside)?;
    let left = left_by(alloc, constraint, place, &stood)?;
    kept(alloc, ready, &stood, left)
}
