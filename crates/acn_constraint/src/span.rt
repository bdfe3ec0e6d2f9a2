ghost use Rattle.std.specs.Prelude.{◌≡◌, ◌≤ℤ◌, IfOk};
ghost use Rattle.acn_num.specs.Ranges.{some_range, bottom, top};
ghost use Rattle.acn_constraint.specs.Hull.{IsHull};
ghost use Rattle.acn_constraint.specs.Sets as sets;

use acn_num::{BOTTOM, NoMemory, RangeSet, TOP};
use std::alloc::Global;

// The number, or the end of all sets that is nearer to it.
fn nearest(x: &i128) -> i128
    ensures { result ≡ sets.nearest x.now }
{
    if *x > TOP {
        TOP
    } else if *x < BOTTOM {
        BOTTOM
    } else {
        *x
    }
}

// The lower end of a range, which `<` leaves out.
fn lower(out: bool, x: &i128) -> i128
    ensures { result ≡ sets.above out (sets.nearest x.now) }
{
    let end = nearest(x);
    if out { end + 1 } else { end }
}

// The upper end of a range, which `<` leaves out.
fn upper(out: bool, x: &i128) -> i128
    ensures { result ≡ sets.below out (sets.nearest x.now) }
{
    let end = nearest(x);
    if out { end - 1 } else { end }
}

/// One number.
pub fn single(alloc: Global, x: &i128) -> Result<RangeSet, NoMemory>
    ensures { IfOk result (λ s. s ≡ sets.one x.now) }
{
    let number = nearest(x);
    RangeSet::one(alloc, number, number)
}

/// The numbers between two ends, each of which `<` may leave out; none where an end isn't there.
pub fn between(
    alloc: Global,
    low: &Option<i128>,
    low_out: bool,
    high: &Option<i128>,
    high_out: bool,
) -> Result<RangeSet, NoMemory>
    ensures { IfOk result (λ s. s ≡ sets.between low.now low_out high.now high_out) }
{
    match (low, high) {
        (Some(low), Some(high)) => RangeSet::between(
            alloc,
            lower(low_out, low),
            upper(high_out, high),
        ),
        (Some(_), None) => Ok(RangeSet::empty(alloc)),
        (None, _) => Ok(RangeSet::empty(alloc)),
    }
}

/// The numbers from the least to the greatest of a set.
pub fn around(alloc: Global, set: &RangeSet) -> Result<RangeSet, NoMemory>
    ensures { IfOk result (λ s. IsHull set.now s) }
{
    let _set = set.ranges();
    between(alloc, &set.least(), false, &set.greatest(), false)
}
