ghost use Rattle.std.specs.Prelude.{◌≡◌, nat_abs, ◌<◌, ◌≤◌, ◌^◌, ◌+◌, ◌*◌, ◌-◌, ◌+ℤ◌, ◌-ℤ◌, ◌≤ℤ◌, cond, nat_le, not, true, IsTrue, option_map, pos, map, ◌∷◌, [], int_le};
ghost use Rattle.std.specs.List.{flat_map, list_all};
ghost use Rattle.acn_grammar.specs.Images.{clipped, images_by};
ghost use Rattle.acn_grammar.specs.Interval as spans;
ghost use Rattle.acn_grammar.specs.Leaves.{line_fine, num_fine};
ghost use Rattle.acn_grammar.specs.Length as lengths;
ghost use Rattle.acn_grammar.specs.declared.limits.TheConstants.{MOST_PATTERN_BITS};

use crate::line_blocks::keys_rise;
use crate::near::near;
use crate::size_rules::apart;
use crate::table_rules::image;
use acn_grammar::{Bounds, NumCoding, NumLeaf, Pattern};
use acn_num::{Name, greater, is_at_most, less};

// 1 where it holds.
fn one_if(holds: bool) -> u64
    ensures value { result ≡ cond holds 1 0 }
    ensures small { result ≤ 1 }
{
    if holds { 1 } else { 0 }
}

// Whether the number needs more octets than these.
fn passes_octets(k: u128, octets: u32) -> bool
    requires { octets < 8 }
    ensures { result ≡ nat_le (256 ^ octets) k }
{
    256u128.pow(octets) <= k
}

// The least count of octets of a number, at least 1.
fn least_octets(k: u128) -> u64
    ensures value { result ≡ lengths.least_octets k }
    ensures small { result ≤ 8 }
{
    let mut count = 1;
    for octets in 1..8 {
        count += one_if(passes_octets(k, octets));
    }
    count
}

// Whether so many octets hold the number in two's complement.
fn fits_octets(y: &i128, octets: u32) -> bool
    requires some { 0 < octets }
    requires few { octets < 8 }
    ensures { result ≡ lengths.fits_octets y.now octets }
{
    let end = 2i128.pow(8 * octets - 1);
    -end <= *y && *y < end
}

// The least count of octets of a number in two's complement, at least 1.
fn least_signed_octets(y: &i128) -> u64
    ensures value { result ≡ lengths.least_signed_octets y.now }
    ensures small { result ≤ 8 }
{
    let mut count = 1;
    for octets in 1..8 {
        count += one_if(!fits_octets(y, octets));
    }
    count
}

fn passes_digits(k: u128, digits: u32) -> bool
    requires { digits < 20 }
    ensures { result ≡ nat_le (10 ^ digits) k }
{
    10u128.pow(digits) <= k
}

// The count of decimal digits of a number.
fn digit_count(k: u128) -> u64
    ensures value { result ≡ lengths.digit_count k }
    ensures small { result ≤ 20 }
{
    let mut count = 1;
    for digits in 1..20 {
        count += one_if(passes_digits(k, digits));
    }
    count
}

fn pattern_width(yes: &Option<Pattern>, no: &Option<Pattern>) -> u32
    ensures value { result ≡ lengths.flag_width yes.now no.now }
    ensures small { result ≤ MOST_PATTERN_BITS }
{
    match yes {
        Some(pattern) => pattern.bits().len() as u32,
        None => match no {
            Some(pattern) => pattern.bits().len() as u32,
            None => 1,
        },
    }
}

/// The width of a coding whose codes all have one.
pub fn fixed_width(coding: &NumCoding) -> Option<u32>
    ensures { result ≡ spans.fixed_width coding.now }
{
    match coding {
        NumCoding::Range { width, .. } => Some(*width),
        NumCoding::PosInt(n) | NumCoding::Twos(n) | NumCoding::Bcd(n) => Some(*n),
        NumCoding::Ascii { bits, .. } => Some(*bits),
        NumCoding::Flag { yes, no } => Some(pattern_width(yes, no)),
        NumCoding::Fixed(pattern) => Some(pattern.bits().len() as u32),
        _ => None,
    }
}

fn sign_width(signed: bool) -> u64
    ensures value { result ≡ lengths.sign_width signed }
    ensures small { result ≤ 8 }
{
    if signed { 8 } else { 0 }
}

fn magnitude(y: &i128) -> u128
    ensures { result ≡ nat_abs y.now }
{
    y.unsigned_abs()
}

// The length of the code of a written number.
fn coding_length(coding: &NumCoding, y: &i128) -> u64
    ensures value { result ≡ lengths.coding_length coding.now y.now }
    ensures small { result < 2 ^ 32 }
{
    match coding {
        NumCoding::Range { width, .. } => u64::from(*width),
        NumCoding::CountedFrom { low } => 8 + 8 * least_octets(apart(low, y)),
        NumCoding::CountedSigned => 8 + 8 * least_signed_octets(y),
        NumCoding::PosInt(n) | NumCoding::Twos(n) | NumCoding::Bcd(n) => u64::from(*n),
        NumCoding::BcdEnded => 4 * (digit_count(magnitude(y)) + 1),
        NumCoding::Ascii { bits, .. } => u64::from(*bits),
        NumCoding::AsciiEnded { end, signed } => {
            sign_width(*signed) + 8 * digit_count(magnitude(y)) + end.bits().len() as u64
        }
        NumCoding::Flag { yes, no } => u64::from(pattern_width(yes, no)),
        NumCoding::Fixed(pattern) => pattern.bits().len() as u64,
    }
}

// The number of a range that is nearest to another.
fn nearest<'a>(x: &'a i128, low: &'a i128, high: &'a i128) -> &'a i128
    ensures { result.now ≡ spans.nearest x.now (low.now, high.now) }
{
    if *x < *low {
        low
    } else if *high < *x {
        high
    } else {
        x
    }
}

fn nearest_length(coding: &NumCoding, low: &i128, high: &i128) -> u64
    ensures value { result ≡ lengths.coding_length coding.now (spans.nearest (spans.origin coding.now) (low.now, high.now)) }
    ensures small { result < 2 ^ 32 }
{
    match coding {
        NumCoding::CountedFrom { low: origin } => coding_length(coding, nearest(origin, low, high)),
        _ => coding_length(coding, nearest(&0, low, high)),
    }
}

fn hull(a: Bounds, b: Bounds) -> Bounds
    ensures { result ≡ spans.hull a b }
{
    Bounds {
        least: a.least.min(b.least),
        greatest: a.greatest.max(b.greatest),
    }
}

// With the shortest and the longest code of the numbers of a range.
fn with_range(all: Bounds, coding: &NumCoding, low: &i128, high: &i128) -> Bounds
    requires least { all.least ≤ 2 ^ 40 }
    requires greatest { all.greatest < 2 ^ 32 }
    ensures value { result ≡ spans.hull all (spans.lengths_of coding.now ((low.now, high.now) ∷ [])) }
    ensures least { result.least ≤ 2 ^ 40 }
    ensures greatest { result.greatest < 2 ^ 32 }
{
    let least = nearest_length(coding, low, high);
    let greatest = coding_length(coding, low).max(coding_length(coding, high));
    hull(all, Bounds { least, greatest })
}

// With the codes of the images of what a range and the keys of a line share.
fn with_line(
    all: Bounds,
    coding: &NumCoding,
    range: &(i128, i128),
    line: &(i128, i128, i128),
) -> Bounds
    requires line { line_fine line.now ≡ true }
    requires least { all.least ≤ 2 ^ 40 }
    requires greatest { all.greatest < 2 ^ 32 }
    ensures value { result ≡ spans.hull all (spans.lengths_of coding.now (clipped range.now line.now)) }
    ensures least { result.least ≤ 2 ^ 40 }
    ensures greatest { result.greatest < 2 ^ 32 }
{
    let low = greater(&range.0, &line.0);
    let high = less(&range.1, &line.1);
    if is_at_most(low, high) {
        with_range(all, coding, &image(line, low), &image(line, high))
    } else {
        all
    }
}

fn with_lines(
    all: Bounds,
    coding: &NumCoding,
    range: &(i128, i128),
    lines: &[(i128, i128, i128)],
) -> Bounds
    requires lines { list_all line_fine lines.now ≡ true }
    requires least { all.least ≤ 2 ^ 40 }
    requires greatest { all.greatest < 2 ^ 32 }
    ensures value { result ≡ spans.hull all (spans.lengths_of coding.now (flat_map (clipped range.now) lines.now)) }
    ensures least { result.least ≤ 2 ^ 40 }
    ensures greatest { result.greatest < 2 ^ 32 }
{
    let mut bounds = all;
    for line in lines {
        bounds = with_line(bounds, coding, range, line);
    }
    bounds
}

fn with_images(
    all: Bounds,
    coding: &NumCoding,
    ranges: &[(i128, i128)],
    lines: &[(i128, i128, i128)],
) -> Bounds
    requires lines { list_all line_fine lines.now ≡ true }
    requires least { all.least ≤ 2 ^ 40 }
    requires greatest { all.greatest < 2 ^ 32 }
    ensures value { result ≡ spans.hull all (spans.lengths_of coding.now (flat_map (λ r. flat_map (clipped r) lines.now) ranges.now)) }
    ensures least { result.least ≤ 2 ^ 40 }
    ensures greatest { result.greatest < 2 ^ 32 }
{
    let rise = keys_rise(lines);
    let mut bounds = all;
    for range in ranges {
        let close = near(rise, range, lines);
        bounds = with_lines(bounds, coding, range, close);
    }
    bounds
}

fn with_ranges(all: Bounds, coding: &NumCoding, ranges: &[(i128, i128)]) -> Bounds
    requires least { all.least ≤ 2 ^ 40 }
    requires greatest { all.greatest < 2 ^ 32 }
    ensures value { result ≡ spans.hull all (spans.lengths_of coding.now ranges.now) }
    ensures least { result.least ≤ 2 ^ 40 }
    ensures greatest { result.greatest < 2 ^ 32 }
{
    let mut bounds = all;
    for range in ranges {
        bounds = with_range(bounds, coding, &range.0, &range.1);
    }
    bounds
}

fn with_items(all: Bounds, coding: &NumCoding, items: &[(Name, i128)]) -> Bounds
    requires least { all.least ≤ 2 ^ 40 }
    requires greatest { all.greatest < 2 ^ 32 }
    ensures value { result ≡ spans.hull all (spans.lengths_of coding.now (map (λ item. (item.1, item.1)) items.now)) }
    ensures least { result.least ≤ 2 ^ 40 }
    ensures greatest { result.greatest < 2 ^ 32 }
{
    let mut bounds = all;
    for item in items {
        bounds = with_range(bounds, coding, &item.1, &item.1);
    }
    bounds
}

/// The shortest and the longest code of the numbers that a leaf writes.
pub fn code_lengths(leaf: &NumLeaf) -> Bounds
    requires { IsTrue (num_fine leaf.now) }
    ensures value { result ≡ spans.code_lengths leaf.now }
    ensures least { result.least ≤ 2 ^ 40 }
    ensures greatest { result.greatest < 2 ^ 32 }
{
    let none = Bounds {
        least: 1 << 40,
        greatest: 0,
    };
    if leaf.items.values {
        return with_items(none, &leaf.coding, leaf.items.items.items());
    }
    match &leaf.table {
        None => with_ranges(none, &leaf.coding, leaf.set.ranges()),
        Some(table) => with_images(none, &leaf.coding, leaf.set.ranges(), table.lines.items()),
    }
}

/// The one width in bits of the codes of a leaf that keeps its rules. None comes exactly where they have several.
pub fn width(leaf: &NumLeaf) -> Option<u32>
    requires { IsTrue (num_fine leaf.now) }
    ensures { result ≡ spans.width_of leaf.now }
{
    match fixed_width(&leaf.coding) {
        Some(width) => Some(width),
        None => {
            let lengths = code_lengths(leaf);
            if lengths.least == lengths.greatest {
                Some(lengths.greatest as u32)
            } else {
                None
            }
        }
    }
}
