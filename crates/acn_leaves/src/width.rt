//! Widths of numbers that are written from a least one on.

ghost use Rattle.std.specs.Prelude.{◌≡◌, ◌≤◌};
ghost use Rattle.acn_num.specs.Ranges.{distance};
ghost use Rattle.acn_leaves.specs.Leaves as leaves;
ghost use Rattle.acn_leaves.specs.Widths as spec;

use acn_num::{RangeSet, bits_for};

/// The least width in bits in which the number stands, at most 64.
#[tactic(auto, unfolding(crate::specs::Widths::least_width), using(crate::proofs::Least::least_found, crate::proofs::Least::none_found))]
pub fn least_width(n: u128) -> u32
    ensures is { result ≡ spec.least_width n }
    ensures fits { result ≤ 64 }
{
    match u64::try_from(n) {
        Ok(n) => bits_for(n),
        Err(_) => 64,
    }
}

/// How far apart two numbers are.
fn distance_between(low: &i128, high: &i128) -> u128
    ensures { result ≡ distance low.now high.now }
{
    high.abs_diff(*low)
}

/// The least number of a set; 0 where it has none.
pub fn low_end(set: &RangeSet) -> i128
    ensures { result ≡ leaves.low_end set.now }
{
    set.least().unwrap_or(0)
}

/// The greatest number of a set; 0 where it has none.
pub fn high_end(set: &RangeSet) -> i128
    ensures { result ≡ leaves.high_end set.now }
{
    set.greatest().unwrap_or(0)
}

/// The width of a range from one number to another.
pub fn range_width(low: &i128, high: &i128) -> u32
    ensures { result ≡ spec.least_width (distance low.now high.now) }
{
    least_width(distance_between(low, high))
}
