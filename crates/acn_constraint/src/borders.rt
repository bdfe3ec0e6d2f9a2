//! The numbers of a set that are nearest to a number, looked for by halves.

ghost use Rattle.std.specs.Prelude.{◌≡◌, ◌≤◌, ◌<ℤ◌, ℤ, MatchOption, drop, int_lt, length, take, true};
ghost use Rattle.std.specs.Int.{int_max, int_min};
ghost use Rattle.acn_num.specs.Ranges.{AreRanges, has};
ghost use Rattle.acn_constraint.specs.Borders.{Begins, Ended, IsFirstFrom, IsLastTo};

use acn_num::{greater, less};

// Whether a range ends below the number.
fn ends_below(range: &(i128, i128), x: &i128) -> bool
    ensures { result ≡ int_lt range.now.1 x.now }
{
    range.1 < *x
}

// Whether a range begins above the number.
fn begins_above(range: &(i128, i128), x: &i128) -> bool
    ensures { result ≡ int_lt x.now range.now.0 }
{
    *x < range.0
}

// The start of a range, or the number where that is greater.
fn start_from(range: &(i128, i128), x: &i128) -> i128
    ensures { result ≡ int_max range.now.0 x.now }
{
    *greater(&range.0, x)
}

// The end of a range, or the number where that is less.
fn end_to(range: &(i128, i128), x: &i128) -> i128
    ensures { result ≡ int_min range.now.1 x.now }
{
    *less(&range.1, x)
}

// How many ranges at the front end below the number.
fn ending_below(ranges: &[(i128, i128)], x: &i128) -> usize
    requires { AreRanges ranges.now }
    ensures within { result ≤ length ranges.now }
    ensures below { (y : ℤ) → has (take result ranges.now) y ≡ true → y <ℤ x.now }
    ensures rest { Begins (drop result ranges.now) x.now }
{
    let mut low = 0;
    let mut high = ranges.len();
    while low < high {
        let middle = low + (high - low) / 2;
        if ends_below(&ranges[middle], x) {
            low = middle + 1;
        } else {
            high = middle;
        }
    }
    low
}

/// The least number of the ranges that isn't below this one.
pub fn first_from(ranges: &[(i128, i128)], x: &i128) -> Option<i128>
    requires { AreRanges ranges.now }
    ensures { MatchOption result ((y : ℤ) → has ranges.now y ≡ true → y <ℤ x.now) (λ p. IsFirstFrom ranges.now x.now p) }
{
    let first = ending_below(ranges, x);
    if first == ranges.len() {
        return None;
    }
    Some(start_from(&ranges[first], x))
}

// How many ranges at the front don't begin above the number.
fn beginning_below(ranges: &[(i128, i128)], x: &i128) -> usize
    requires { AreRanges ranges.now }
    ensures within { result ≤ length ranges.now }
    ensures above { (y : ℤ) → has (drop result ranges.now) y ≡ true → x.now <ℤ y }
    ensures front { Ended (take result ranges.now) x.now }
{
    let mut low = 0;
    let mut high = ranges.len();
    while low < high {
        let middle = low + (high - low) / 2;
        if begins_above(&ranges[middle], x) {
            high = middle;
        } else {
            low = middle + 1;
        }
    }
    low
}

/// The greatest number of the ranges that isn't above this one.
pub fn last_to(ranges: &[(i128, i128)], x: &i128) -> Option<i128>
    requires { AreRanges ranges.now }
    ensures { MatchOption result ((y : ℤ) → has ranges.now y ≡ true → x.now <ℤ y) (λ p. IsLastTo ranges.now x.now p) }
{
    let count = beginning_below(ranges, x);
    if count == 0 {
        return None;
    }
    Some(end_to(&ranges[count - 1], x))
}
