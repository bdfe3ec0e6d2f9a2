ghost use Rattle.std.specs.Prelude.{◌≡◌, ◌≤◌, ◌<◌, ◌^◌, ◌-◌, max, false, nat_abs, ℕ, ℤ, length, List, Some, None};
ghost use Rattle.std.specs.List.{flat_map};
ghost use Rattle.std.specs.Int.{int_max, int_min};
ghost use Rattle.acn_grammar.specs.Images.{clipped, images_by, images_of};
ghost use Rattle.acn_grammar.specs.LeafFails as spec;
ghost use Rattle.acn_grammar.specs.Length.{digit_count};
ghost use Rattle.acn_ints.specs.Limits.{IsNear, AreNear, ArePairsNear, IsNearTable};

use crate::known::moved;
use acn_grammar::NumLeaf;

type Line = (i128, i128, i128);

/// How many decimal digits the number has, 20 at most.
pub fn digits_of(k: u128) -> u32
    ensures count { result ≡ digit_count k }
    ensures some { 1 ≤ result }
    ensures few { result ≤ 20 }
    ensures holds { k < 10 ^ 20 → k < 10 ^ result }
    ensures least { 1 < result → 10 ^ (result - 1) ≤ k }
{
    let mut power = 10u128;
    for count in 1..20u32 {
        if power > k {
            return count;
        }
        power *= 10;
    }
    20
}

/// How many decimal digits the magnitude has, 20 at most.
fn magnitude_digits(x: &i128) -> u32
    ensures count { result ≡ digit_count (nat_abs x.now) }
    ensures some { 1 ≤ result }
    ensures few { result ≤ 20 }
{
    digits_of(x.unsigned_abs())
}

fn greater<'a>(a: &'a i128, b: &'a i128) -> &'a i128
    ensures { result.now ≡ int_max a.now b.now }
{
    if *b < *a { a } else { b }
}

fn less<'a>(a: &'a i128, b: &'a i128) -> &'a i128
    ensures { result.now ≡ int_min a.now b.now }
{
    if *b < *a { b } else { a }
}

/// The greatest of the count and of the counts of digits of the two numbers.
fn most_of(most: u32, low: &i128, high: &i128) -> u32
    requires { most ≤ 20 }
    ensures value { result ≡ max most (max (digit_count (nat_abs low.now)) (digit_count (nat_abs high.now))) }
    ensures few { result ≤ 20 }
{
    most.max(magnitude_digits(low).max(magnitude_digits(high)))
}

/// The greatest of the count and of the digits of what the range and the keys of a line share.
fn most_of_line(most: u32, range: &(i128, i128), line: &Line) -> u32
    requires some { 1 ≤ most }
    requires few { most ≤ 20 }
    requires range { IsNear range.now.0 × IsNear range.now.1 }
    requires line { IsNear line.now.0 × IsNear line.now.1 × IsNear line.now.2 }
    ensures value { result ≡ max most (spec.most_digits (clipped range.now line.now)) }
    ensures few { result ≤ 20 }
{
    let low = greater(&range.0, &line.0);
    let high = less(&range.1, &line.1);
    if *low <= *high {
        let first = moved(low, &line.0, &line.2);
        let last = moved(high, &line.0, &line.2);
        most_of(most, &first, &last)
    } else {
        most
    }
}

/// The same over all lines.
fn most_of_lines(most: u32, range: &(i128, i128), lines: &[Line]) -> u32
    requires some { 1 ≤ most }
    requires few { most ≤ 20 }
    requires range { IsNear range.now.0 × IsNear range.now.1 }
    requires lines { AreNear lines.now }
    ensures value { result ≡ max most (spec.most_digits (flat_map (clipped range.now) lines.now)) }
    ensures few { result ≤ 20 }
{
    let mut greatest = most;
    for line in lines {
        greatest = most_of_line(greatest, range, line);
    }
    greatest
}

/// The most digits of the images of the numbers of the ranges.
fn most_under(ranges: &[(i128, i128)], lines: &[Line]) -> u32
    requires ranges { ArePairsNear ranges.now }
    requires lines { AreNear lines.now }
    ensures value { result ≡ spec.most_digits (flat_map (λ r. flat_map (clipped r) lines.now) ranges.now) }
    ensures few { result ≤ 20 }
{
    let mut most = 1u32;
    for range in ranges {
        most = most_of_lines(most, range, lines);
    }
    most
}

/// The most digits of the numbers of the ranges.
fn most_in(ranges: &[(i128, i128)]) -> u32
    ensures value { result ≡ spec.most_digits ranges.now }
    ensures few { result ≤ 20 }
{
    let mut most = 1u32;
    for range in ranges {
        most = most_of(most, &range.0, &range.1);
    }
    most
}

/// The most decimal digits of a number that the leaf writes.
pub fn most_digits(leaf: &NumLeaf) -> u32
    requires plain { leaf.now.items.values ≡ false }
    requires table { IsNearTable leaf.now.table }
    ensures value { result ≡ spec.most_digits (images_of leaf.now) }
    ensures few { result ≤ 20 }
{
    let ranges = leaf.set.ranges();
    match &leaf.table {
        Some(table) => most_under(ranges, table.lines.items()),
        None => most_in(ranges),
    }
}
