ghost use Rattle.std.specs.Prelude.{◌≡◌, ◌&&◌, int_le, ◌≤ℤ◌, ◌+ℤ◌, ◌-ℤ◌, true, nat_eq, ◌∷◌, []};
ghost use Rattle.std.specs.List.{list_all, flat_map};
ghost use Rattle.acn_num.specs.Ranges.{count};
ghost use Rattle.acn_leaf.specs.Ends.{ends_behind};
ghost use Rattle.acn_grammar.specs.Images as images;
ghost use Rattle.acn_grammar.specs.Leaves as leaves;
ghost use Rattle.acn_leaf.specs.Taken.{left_of};

use crate::line_blocks::{keys_rise, lines_differ, lines_differ_in};
use crate::near::near;
use crate::number_rules::is_number;
use crate::size_rules::apart;
use acn_num::{RangeSet, greater, is_at_most, less};
use std::alloc::Global;

// The number as far from `to` as the key is from the first one.
fn shifted(to: &i128, first: &i128, key: &i128) -> i128
    requires to { leaves.is_number to.now ≡ true }
    requires first { leaves.is_number first.now ≡ true }
    requires key { leaves.is_number key.now ≡ true }
    ensures { result ≡ to.now +ℤ (key.now -ℤ first.now) }
{
    *to + (*key - *first)
}

// Whether keys and images of the line are numbers in order.
fn line_fine(line: &(i128, i128, i128)) -> bool
    ensures { result ≡ leaves.line_fine line.now }
{
    if line.0 <= line.1 && is_number(&line.0) && is_number(&line.1) && is_number(&line.2) {
        is_number(&shifted(&line.2, &line.0, &line.1))
    } else {
        false
    }
}

fn lines_fine(lines: &[(i128, i128, i128)]) -> bool
    ensures { result ≡ list_all leaves.line_fine lines.now }
{
    for line in lines {
        if !line_fine(line) {
            return false;
        }
    }
    true
}

/// The image of a key.
pub fn image(line: &(i128, i128, i128), key: &i128) -> i128
    requires line { leaves.line_fine line.now ≡ true }
    requires first { line.now.0 ≤ℤ key.now }
    requires last { key.now ≤ℤ line.now.1 }
    ensures { result ≡ line.now.2 +ℤ (key.now -ℤ line.now.0) }
{
    shifted(&line.2, &line.0, key)
}

// What is left of the count behind the numbers that a line maps of a range.
fn left_by_line(left: u128, range: &(i128, i128), line: &(i128, i128, i128)) -> Option<u128>
    requires { leaves.line_fine line.now ≡ true }
    ensures { result ≡ left_of left (count (images.clipped range.now line.now)) }
{
    let low = greater(&range.0, &line.0);
    let high = less(&range.1, &line.1);
    if is_at_most(low, high) {
        left.checked_sub(apart(low, high) + 1)
    } else {
        Some(left)
    }
}

fn left_by_lines(left: u128, range: &(i128, i128), lines: &[(i128, i128, i128)]) -> Option<u128>
    requires { list_all leaves.line_fine lines.now ≡ true }
    ensures { result ≡ left_of left (count (flat_map (images.clipped range.now) lines.now)) }
{
    let mut rest = left;
    for line in lines {
        match left_by_line(rest, range, line) {
            Some(less) => rest = less,
            None => return None,
        }
    }
    Some(rest)
}

fn left_by_ranges(left: u128, ranges: &[(i128, i128)], lines: &[(i128, i128, i128)]) -> Option<u128>
    requires { list_all leaves.line_fine lines.now ≡ true }
    ensures { result ≡ left_of left (count (flat_map (λ r. flat_map (images.clipped r) lines.now) ranges.now)) }
{
    let rise = keys_rise(lines);
    let mut rest = left;
    for range in ranges {
        let close = near(rise, range, lines);
        match left_by_lines(rest, range, close) {
            Some(less) => rest = less,
            None => return None,
        }
    }
    Some(rest)
}

// Whether the lines map as many numbers of the set as there are, no key being in two lines.
fn maps_each(set: &RangeSet, lines: &[(i128, i128, i128)]) -> bool
    requires { list_all leaves.line_fine lines.now ≡ true }
    ensures { result ≡ nat_eq (count (flat_map (λ r. flat_map (images.clipped r) lines.now) set.now)) (count set.now) }
{
    match left_by_ranges(set.count(), set.ranges(), lines) {
        Some(rest) => rest == 0,
        None => false,
    }
}

/// Whether the lines are one to one: keys and images of each are numbers in order, and no two have a key or an image in
/// common. It takes no memory.
pub fn one_to_one(lines: &[(i128, i128, i128)]) -> bool
    ensures { result ≡ (list_all leaves.line_fine lines.now && leaves.all_differ leaves.share lines.now) }
{
    lines_fine(lines) && lines_differ(lines)
}

/// Whether the lines are one to one. It takes memory where they are many, as far as that can be had.
pub fn one_to_one_in(alloc: Global, lines: &[(i128, i128, i128)]) -> bool
    ensures { result ≡ (list_all leaves.line_fine lines.now && leaves.all_differ leaves.share lines.now) }
{
    lines_fine(lines) && lines_differ_in(alloc, lines)
}

/// Whether the lines are one to one, within the numbers, and map every number of the set.
pub fn lines_map(set: &RangeSet, lines: &[(i128, i128, i128)]) -> bool
    ensures { result ≡ (list_all leaves.line_fine lines.now && (leaves.all_differ leaves.share lines.now && nat_eq (count (flat_map (λ r. flat_map (images.clipped r) lines.now) set.now)) (count set.now))) }
{
    one_to_one(lines) && maps_each(set, lines)
}

/// The ends of a range and of some before it.
pub fn widen(ends: &Option<(i128, i128)>, low: &i128, high: &i128) -> Option<(i128, i128)>
    ensures { result ≡ ends_behind ends.now ((low.now, high.now) ∷ []) }
{
    match ends {
        None => Some((*low, *high)),
        Some((first, last)) => Some((*less(first, low), *greater(last, high))),
    }
}

fn widen_by_line(
    ends: &Option<(i128, i128)>,
    range: &(i128, i128),
    line: &(i128, i128, i128),
) -> Option<(i128, i128)>
    requires { leaves.line_fine line.now ≡ true }
    ensures { result ≡ ends_behind ends.now (images.clipped range.now line.now) }
{
    let low = greater(&range.0, &line.0);
    let high = less(&range.1, &line.1);
    if is_at_most(low, high) {
        widen(ends, &image(line, low), &image(line, high))
    } else {
        *ends
    }
}

fn widen_by_lines(
    ends: &Option<(i128, i128)>,
    range: &(i128, i128),
    lines: &[(i128, i128, i128)],
) -> Option<(i128, i128)>
    requires { list_all leaves.line_fine lines.now ≡ true }
    ensures { result ≡ ends_behind ends.now (flat_map (images.clipped range.now) lines.now) }
{
    let mut wide = *ends;
    for line in lines {
        wide = widen_by_line(&wide, range, line);
    }
    wide
}

/// The least and the greatest image of the numbers of these ranges.
pub fn image_ends(ranges: &[(i128, i128)], lines: &[(i128, i128, i128)]) -> Option<(i128, i128)>
    requires { list_all leaves.line_fine lines.now ≡ true }
    ensures { result ≡ images.ends (flat_map (λ r. flat_map (images.clipped r) lines.now) ranges.now) }
{
    let rise = keys_rise(lines);
    let mut wide = None;
    for range in ranges {
        let close = near(rise, range, lines);
        wide = widen_by_lines(&wide, range, close);
    }
    wide
}

/// The least and the greatest number of these ranges.
pub fn ends(ranges: &[(i128, i128)]) -> Option<(i128, i128)>
    ensures { result ≡ images.ends ranges.now }
{
    let mut wide = None;
    for range in ranges {
        wide = widen(&wide, &range.0, &range.1);
    }
    wide
}
