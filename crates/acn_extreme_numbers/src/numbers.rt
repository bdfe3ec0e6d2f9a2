//! A number of a leaf with a shortest code, or with a longest: what is tried are the ends of the ranges and what is nearest to where codes
//! grow from. Of those with a code of one length the least serves.

ghost use Rattle.std.specs.Prelude.{◌≡◌, ◌≤ℤ◌, ◌∷◌, [], ◌+ℤ◌, ◌-ℤ◌, ◌&&◌, nat_eq, int_lt, map, IsTrue, pos, true, None};
ghost use Rattle.std.specs.List.{flat_map, list_all};
ghost use Rattle.acn_num.specs.Ranges.{In};
ghost use Rattle.acn_grammar.specs.Interval as spans;
ghost use Rattle.acn_grammar.specs.Leaves.{num_fine, line_fine, is_number as in_numbers};
ghost use Rattle.acn_grammar.specs.Length.{least, num_length};
ghost use Rattle.acn_extreme_laws.specs.Codes as codes;
ghost use Rattle.acn_extreme_numbers.specs.Picked.{IsPart, AreParts, picked};
ghost use Rattle.acn_extreme_numbers.specs.Tries as tries;

use acn_extreme_laws::Side;
use acn_ints::code_length;
use acn_leaf::fixed_width;
use acn_num::{RangeSet, greater, is_at_most, less};
use acn_tree::{NumCoding, NumLeaf};

/// How far from their origin numbers lie that have one octet more than the numbers before them.
const OCTET_STEPS: [i128; 7] = [
    256,
    65_536,
    16_777_216,
    4_294_967_296,
    1_099_511_627_776,
    281_474_976_710_656,
    72_057_594_037_927_936,
];

/// The numbers that have another count of octets of two's complement than the numbers before them.
const SIGNED_STEPS: [i128; 14] = [
    -36_028_797_018_963_968,
    -140_737_488_355_328,
    -549_755_813_888,
    -2_147_483_648,
    -8_388_608,
    -32_768,
    -128,
    128,
    32_768,
    8_388_608,
    2_147_483_648,
    549_755_813_888,
    140_737_488_355_328,
    36_028_797_018_963_968,
];

/// The numbers that have another count of digits than the numbers before them.
const DIGIT_STEPS: [i128; 37] = [
    -999_999_999_999_999_999,
    -99_999_999_999_999_999,
    -9_999_999_999_999_999,
    -999_999_999_999_999,
    -99_999_999_999_999,
    -9_999_999_999_999,
    -999_999_999_999,
    -99_999_999_999,
    -9_999_999_999,
    -999_999_999,
    -99_999_999,
    -9_999_999,
    -999_999,
    -99_999,
    -9_999,
    -999,
    -99,
    -9,
    10,
    100,
    1_000,
    10_000,
    100_000,
    1_000_000,
    10_000_000,
    100_000_000,
    1_000_000_000,
    10_000_000_000,
    100_000_000_000,
    1_000_000_000_000,
    10_000_000_000_000,
    100_000_000_000_000,
    1_000_000_000_000_000,
    10_000_000_000_000_000,
    100_000_000_000_000_000,
    1_000_000_000_000_000_000,
    10_000_000_000_000_000_000,
];

/// The best number so far.
#[derive(Clone, Copy)]
struct Best {
    number: i128,
}

fn is_ahead(side: Side, a: u64, b: u64) -> bool
    ensures { result ≡ codes.ahead side a b }
{
    match side {
        Side::Shortest => a < b,
        Side::Longest => b < a,
    }
}

fn length(leaf: &NumLeaf, x: &i128) -> u64
    requires fine { IsTrue (num_fine leaf.now) }
    requires permitted { In leaf.now.set x.now }
    ensures { result ≡ num_length leaf.now x.now }
{
    code_length(leaf, *x)
}

// The best of two numbers.
fn with_number(leaf: &NumLeaf, side: Side, best: Best, x: &i128) -> Best
    requires fine { IsTrue (num_fine leaf.now) }
    requires best { In leaf.now.set best.number }
    requires permitted { In leaf.now.set x.now }
    ensures number { result.number ≡ picked leaf.now side best.number (x.now ∷ []) }
    ensures permitted { In leaf.now.set result.number }
{
    if is_ahead(side, length(leaf, x), length(leaf, &best.number)) {
        Best { number: *x }
    } else {
        best
    }
}

// The best of these numbers.
fn with_three(leaf: &NumLeaf, side: Side, best: Best, low: &i128, near: &i128, high: &i128) -> Best
    requires fine { IsTrue (num_fine leaf.now) }
    requires best { In leaf.now.set best.number }
    requires low { In leaf.now.set low.now }
    requires near { In leaf.now.set near.now }
    requires high { In leaf.now.set high.now }
    ensures number { result.number ≡ picked leaf.now side best.number (low.now ∷ near.now ∷ high.now ∷ []) }
    ensures permitted { In leaf.now.set result.number }
{
    let first = with_number(leaf, side, best, low);
    let second = with_number(leaf, side, first, near);
    with_number(leaf, side, second, high)
}

// The number of a range that is nearest to another.
fn nearest<'a>(x: &'a i128, low: &'a i128, high: &'a i128) -> &'a i128
    ensures { result.now ≡ spans.nearest x.now (low.now, high.now) }
{
    if *x < *low {
        low
    } else if *high < *x {
        high
    } else {
        x
    }
}

// The number from which codes grow on both sides.
fn origin(coding: &NumCoding) -> &i128
    ensures { result.now ≡ spans.origin coding.now }
{
    match coding {
        NumCoding::CountedFrom { low } => low,
        _ => &0,
    }
}

fn with_range(leaf: &NumLeaf, side: Side, best: Best, range: &(i128, i128)) -> Best
    requires fine { IsTrue (num_fine leaf.now) }
    requires best { In leaf.now.set best.number }
    requires part { IsPart leaf.now.set range.now }
    ensures number { result.number ≡ picked leaf.now side best.number (range.now.0 ∷ spans.nearest (spans.origin leaf.now.coding) range.now ∷ range.now.1 ∷ []) }
    ensures permitted { In leaf.now.set result.number }
{
    let near = nearest(origin(&leaf.coding), &range.0, &range.1);
    with_three(leaf, side, best, &range.0, near, &range.1)
}

// The best of what is tried where there is no table.
fn with_ranges(leaf: &NumLeaf, side: Side, best: Best, ranges: &[(i128, i128)]) -> Best
    requires fine { IsTrue (num_fine leaf.now) }
    requires best { In leaf.now.set best.number }
    requires parts { AreParts leaf.now.set ranges.now }
    ensures number { result.number ≡ picked leaf.now side best.number (tries.tried_by (spans.origin leaf.now.coding) None ranges.now) }
    ensures permitted { In leaf.now.set result.number }
{
    let mut so_far = best;
    for range in ranges {
        so_far = with_range(leaf, side, so_far, range);
    }
    so_far
}

// The number as far from `to` as the key is from the first one.
fn shifted(to: &i128, first: &i128, key: &i128) -> i128
    requires to { in_numbers to.now ≡ true }
    requires first { in_numbers first.now ≡ true }
    requires key { in_numbers key.now ≡ true }
    ensures { result ≡ to.now +ℤ (key.now -ℤ first.now) }
{
    *to + (*key - *first)
}

// The key on a line between two others whose image is nearest to zero.
fn nearest_key(line: &(i128, i128, i128), low: &i128, high: &i128) -> i128
    requires line { line_fine line.now ≡ true }
    requires first { line.now.0 ≤ℤ low.now }
    requires order { low.now ≤ℤ high.now }
    requires last { high.now ≤ℤ line.now.1 }
    ensures { result ≡ tries.nearest_key (pos 0) line.now low.now high.now }
{
    let least = shifted(&line.2, &line.0, low);
    let greatest = shifted(&line.2, &line.0, high);
    shifted(&line.0, &line.2, nearest(&0, &least, &greatest))
}

fn with_line(
    leaf: &NumLeaf,
    side: Side,
    best: Best,
    range: &(i128, i128),
    line: &(i128, i128, i128),
) -> Best
    requires fine { IsTrue (num_fine leaf.now) }
    requires best { In leaf.now.set best.number }
    requires part { IsPart leaf.now.set range.now }
    requires line { line_fine line.now ≡ true }
    ensures number { result.number ≡ picked leaf.now side best.number (tries.tried_on (pos 0) range.now line.now) }
    ensures permitted { In leaf.now.set result.number }
{
    let low = greater(&range.0, &line.0);
    let high = less(&range.1, &line.1);
    if is_at_most(low, high) {
        let near = nearest_key(line, low, high);
        with_three(leaf, side, best, low, &near, high)
    } else {
        best
    }
}

fn with_lines(
    leaf: &NumLeaf,
    side: Side,
    best: Best,
    range: &(i128, i128),
    lines: &[(i128, i128, i128)],
) -> Best
    requires fine { IsTrue (num_fine leaf.now) }
    requires best { In leaf.now.set best.number }
    requires part { IsPart leaf.now.set range.now }
    requires lines { list_all line_fine lines.now ≡ true }
    ensures number { result.number ≡ picked leaf.now side best.number (flat_map (tries.tried_on (pos 0) range.now) lines.now) }
    ensures permitted { In leaf.now.set result.number }
{
    let mut so_far = best;
    for line in lines {
        so_far = with_line(leaf, side, so_far, range, line);
    }
    so_far
}

// The best of what is tried where there is a table.
fn with_images(
    leaf: &NumLeaf,
    side: Side,
    best: Best,
    ranges: &[(i128, i128)],
    lines: &[(i128, i128, i128)],
) -> Best
    requires fine { IsTrue (num_fine leaf.now) }
    requires best { In leaf.now.set best.number }
    requires parts { AreParts leaf.now.set ranges.now }
    requires lines { list_all line_fine lines.now ≡ true }
    ensures number { result.number ≡ picked leaf.now side best.number (flat_map (λ r. flat_map (tries.tried_on (pos 0) r) lines.now) ranges.now) }
    ensures permitted { In leaf.now.set result.number }
{
    let mut so_far = best;
    for range in ranges {
        so_far = with_lines(leaf, side, so_far, range, lines);
    }
    so_far
}

// The least number.
fn least_number(set: &RangeSet) -> i128
    ensures { result ≡ least set.now }
{
    match set.least() {
        Some(x) => x,
        None => 0,
    }
}

// The best of what is tried, and of the least number.
fn with_tried(leaf: &NumLeaf, side: Side, best: Best) -> Best
    requires fine { IsTrue (num_fine leaf.now) }
    requires best { In leaf.now.set best.number }
    ensures number { result.number ≡ picked leaf.now side best.number (tries.tried_by (spans.origin leaf.now.coding) leaf.now.table leaf.now.set) }
    ensures permitted { In leaf.now.set result.number }
{
    match &leaf.table {
        None => with_ranges(leaf, side, best, leaf.set.ranges()),
        Some(table) => with_images(leaf, side, best, leaf.set.ranges(), table.lines.items()),
    }
}

// How far from the origin codes get another length.
fn steps(coding: &NumCoding) -> &'static [i128]
    ensures steps { result.now ≡ tries.steps coding.now }
    ensures numbers { list_all in_numbers result.now ≡ true }
{
    match coding {
        NumCoding::CountedFrom { .. } => &OCTET_STEPS,
        NumCoding::CountedSigned => &SIGNED_STEPS,
        NumCoding::BcdEnded => &DIGIT_STEPS,
        NumCoding::AsciiEnded { .. } => &DIGIT_STEPS,
        _ => &[],
    }
}

// Whether a number is less than another, with a code of the same length.
fn is_lesser(leaf: &NumLeaf, x: &i128, best: &i128) -> bool
    requires fine { IsTrue (num_fine leaf.now) }
    requires permitted { In leaf.now.set x.now }
    requires best { In leaf.now.set best.now }
    ensures { result ≡ nat_eq (num_length leaf.now x.now) (num_length leaf.now best.now) && int_lt x.now best.now }
{
    length(leaf, x) == length(leaf, best) && *x < *best
}

// The lesser of two numbers, where it is permitted and its code has the same length.
fn lesser(leaf: &NumLeaf, best: Best, x: &i128) -> Best
    requires fine { IsTrue (num_fine leaf.now) }
    requires best { In leaf.now.set best.number }
    ensures number { result.number ≡ tries.lesser leaf.now x.now best.number }
    ensures permitted { In leaf.now.set result.number }
{
    if leaf.set.holds(*x) {
        if is_lesser(leaf, x, &best.number) {
            Best { number: *x }
        } else {
            best
        }
    } else {
        best
    }
}

// The least of those whose images lie so far from that of a key.
fn with_steps(leaf: &NumLeaf, best: Best, key: &i128, image: &i128, steps: &[i128]) -> Best
    requires fine { IsTrue (num_fine leaf.now) }
    requires best { In leaf.now.set best.number }
    requires key { in_numbers key.now ≡ true }
    requires image { in_numbers image.now ≡ true }
    requires numbers { list_all in_numbers steps.now ≡ true }
    ensures number { result.number ≡ tries.least_of leaf.now best.number (tries.keys_from key.now image.now steps.now) }
    ensures permitted { In leaf.now.set result.number }
{
    let mut so_far = best;
    for step in steps {
        let x = shifted(key, image, step);
        so_far = lesser(leaf, so_far, &x);
    }
    so_far
}

// The least of the first keys of ranges.
fn with_lows(leaf: &NumLeaf, best: Best, ranges: &[(i128, i128)]) -> Best
    requires fine { IsTrue (num_fine leaf.now) }
    requires best { In leaf.now.set best.number }
    ensures number { result.number ≡ tries.least_of leaf.now best.number (map (λ r. r.0) ranges.now) }
    ensures permitted { In leaf.now.set result.number }
{
    let mut so_far = best;
    for range in ranges {
        so_far = lesser(leaf, so_far, &range.0);
    }
    so_far
}

// The least of the first key of a line and of those behind it at which codes get another length.
fn with_line_keys(leaf: &NumLeaf, best: Best, line: &(i128, i128, i128), steps: &[i128]) -> Best
    requires fine { IsTrue (num_fine leaf.now) }
    requires best { In leaf.now.set best.number }
    requires line { line_fine line.now ≡ true }
    requires numbers { list_all in_numbers steps.now ≡ true }
    ensures number { result.number ≡ tries.least_of leaf.now best.number (tries.line_keys steps.now line.now) }
    ensures permitted { In leaf.now.set result.number }
{
    let first = lesser(leaf, best, &line.0);
    with_steps(leaf, first, &line.0, &line.2, steps)
}

fn with_keys(leaf: &NumLeaf, best: Best, lines: &[(i128, i128, i128)], steps: &[i128]) -> Best
    requires fine { IsTrue (num_fine leaf.now) }
    requires best { In leaf.now.set best.number }
    requires lines { list_all line_fine lines.now ≡ true }
    requires numbers { list_all in_numbers steps.now ≡ true }
    ensures number { result.number ≡ tries.least_of leaf.now best.number (flat_map (tries.line_keys steps.now) lines.now) }
    ensures permitted { In leaf.now.set result.number }
{
    let mut so_far = best;
    for line in lines {
        so_far = with_line_keys(leaf, so_far, line, steps);
    }
    so_far
}

// The least number whose code is as long as that of the best.
fn least_alike(leaf: &NumLeaf, best: Best) -> Best
    requires fine { IsTrue (num_fine leaf.now) }
    requires best { In leaf.now.set best.number }
    ensures number { result.number ≡ tries.least_of leaf.now best.number (tries.firsts_of leaf.now) }
    ensures permitted { In leaf.now.set result.number }
{
    let steps = steps(&leaf.coding);
    match &leaf.table {
        None => with_steps(leaf, best, origin(&leaf.coding), &0, steps),
        Some(table) => {
            let first = with_lows(leaf, best, leaf.set.ranges());
            with_keys(leaf, first, table.lines.items(), steps)
        }
    }
}

/// The least number of the leaf with a shortest code, or with a longest.
pub fn number_at(side: Side, leaf: &NumLeaf) -> i128
    requires { IsTrue (num_fine leaf.now) }
    ensures { codes.IsBestNumber side leaf.now result }
{
    let least = Best {
        number: least_number(&leaf.set),
    };
    match fixed_width(&leaf.coding) {
        Some(_) => least.number,
        None => least_alike(leaf, with_tried(leaf, side, least)).number,
    }
}
