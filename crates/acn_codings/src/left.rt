ghost use Rattle.std.specs.Prelude.{◌≡◌, IfOk, true, false};
ghost use Rattle.acn_constraint.specs.Views.{opened_of};
ghost use Rattle.acn_codings.specs.Left as spec;

use acn_constraint::OpenSet;
use acn_num::{BOTTOM, NoMemory, RangeSet, TOP};
use std::alloc::Global;

// An end, where there is one.
fn end_or(other: i128, end: Option<i128>) -> i128
    ensures { result ≡ spec.end_or other end }
{
    match end {
        Some(end) => end,
        None => other,
    }
}

// The numbers of a set up to the greatest of another.
#[tactic(auto, using(crate::proofs::Apart::greatest_within))]
fn up_to(alloc: Global, set: &RangeSet, can: &RangeSet) -> Result<RangeSet, NoMemory>
    ensures { IfOk result (λ s. s ≡ spec.left_by false true set.now can.now) }
{
    let _ranges = can.ranges();
    let high = end_or(BOTTOM, can.greatest());
    let ends = RangeSet::one(alloc, BOTTOM, high)?;
    set.meet(alloc, &ends)
}

// The numbers of a set from the least of another.
#[tactic(auto, using(crate::proofs::Apart::least_within))]
fn down_to(alloc: Global, set: &RangeSet, can: &RangeSet) -> Result<RangeSet, NoMemory>
    ensures { IfOk result (λ s. s ≡ spec.left_by true false set.now can.now) }
{
    let _ranges = can.ranges();
    let low = end_or(TOP, can.least());
    let ends = RangeSet::one(alloc, low, TOP)?;
    set.meet(alloc, &ends)
}

/// What is left of a set of numbers where these can be written: a set that is open at both ends is met with them, one that
/// is open at one end loses what lies beyond their end on that side. (This profile's own.)
#[tactic(auto, unfolding(crate::specs::Left::left_of))]
pub fn left_of(alloc: Global, set: &OpenSet, can: &RangeSet) -> Result<RangeSet, NoMemory>
    ensures { IfOk result (λ s. s ≡ spec.left_of (opened_of set.now) can.now) }
{
    match (set.open_below, set.open_above) {
        (true, true) => set.numbers.meet(alloc, can),
        (false, true) => up_to(alloc, &set.numbers, can),
        (true, false) => down_to(alloc, &set.numbers, can),
        (false, false) => set.numbers.copy(alloc),
    }
}

/// The least permitted number that can't be written; where nothing is left of the set, the least that it held before.
#[tactic(auto, unfolding(crate::specs::Left::least_lost))]
pub fn least_lost(alloc: Global, set: &OpenSet, can: &RangeSet) -> Result<Option<i128>, NoMemory>
    ensures { IfOk result (λ x. x ≡ spec.least_lost (opened_of set.now) can.now) }
{
    let left = left_of(alloc, set, can)?;
    if left.ranges().is_empty() {
        return Ok(set.numbers.least());
    }
    let lost = left.except(alloc, can)?;
    Ok(lost.least())
}
