ghost use Rattle.std.specs.Prelude.{◌≡◌, ◌&&◌, ◌||◌, nat_eq, ◌+ℤ◌, ◌-ℤ◌, Some, ◌<◌, ◌≤◌, ◌^◌, pos, neg_ℤ, int_le, int_lt, not, true, length, take};
ghost use Rattle.std.specs.List.{list_all, list_any, flat_map};
ghost use Rattle.acn_num.specs.Bits.{number, weight};
ghost use Rattle.acn_grammar.specs.Asks.{same_name};
ghost use Rattle.acn_leaf.specs.Ends.{ends_behind};
ghost use Rattle.acn_grammar.specs.Images as images;
ghost use Rattle.acn_grammar.specs.Leaves as leaves;
ghost use Rattle.acn_grammar.specs.Spell.{octet_numbers};

use crate::size_rules::{apart, is_least, is_pattern, is_terminator};
use acn_grammar::{MOST_INTEGER_BITS, NumCoding, NumKind, Pattern};
use acn_num::RangeSet;

pub fn takes(kind: NumKind, coding: &NumCoding) -> bool
    ensures { result ≡ leaves.takes kind coding.now }
{
    match kind {
        NumKind::Integer => !matches!(coding, NumCoding::Flag { .. } | NumCoding::Fixed(_)),
        NumKind::Boolean => matches!(coding, NumCoding::Flag { .. }),
        NumKind::Enumerated => matches!(
            coding,
            NumCoding::Range { .. } | NumCoding::PosInt(_) | NumCoding::Twos(_)
        ),
        NumKind::Null => matches!(coding, NumCoding::Range { .. } | NumCoding::Fixed(_)),
    }
}

// Whether an INTEGER has the coding only with a size.
pub fn has_size(coding: &NumCoding) -> bool
    ensures { result ≡ leaves.has_size coding.now }
{
    matches!(
        coding,
        NumCoding::PosInt(_)
            | NumCoding::Twos(_)
            | NumCoding::Bcd(_)
            | NumCoding::BcdEnded
            | NumCoding::Ascii { .. }
            | NumCoding::AsciiEnded { .. }
    )
}

fn same_bits(a: &[bool], b: &[bool]) -> bool
    ensures { result ≡ leaves.same_bits a.now b.now }
{
    a == b
}

fn worth(bit: bool) -> u32
    ensures value { result ≡ weight bit }
    ensures small { result ≤ 1 }
{
    if bit { 1 } else { 0 }
}

// The number of the first octet.
fn first_octet(bits: &[bool]) -> u32
    requires { 8 ≤ length bits.now }
    ensures { result ≡ number (take 8 bits.now) }
{
    worth(bits[0]) * 128
        + worth(bits[1]) * 64
        + worth(bits[2]) * 32
        + worth(bits[3]) * 16
        + worth(bits[4]) * 8
        + worth(bits[5]) * 4
        + worth(bits[6]) * 2
        + worth(bits[7])
}

// Whether the octet is a digit or a sign.
fn is_digit_or_sign(octet: u32) -> bool
    ensures { result ≡ (leaves.from_to 48 57 octet || (nat_eq octet 43 || nat_eq octet 45)) }
{
    (48 <= octet && octet <= 57) || octet == 43 || octet == 45
}

/// Whether the first octet of a terminator is a digit or a sign.
pub fn begins_number(end: &Pattern) -> bool
    requires { leaves.is_terminator end.now ≡ true }
    ensures { result ≡ leaves.begins_number (octet_numbers end.now) }
{
    is_digit_or_sign(first_octet(end.bits()))
}

/// Whether the patterns of a BOOLEAN can be told apart: where both are given, they have one length and differ.
pub fn flag_patterns_fine(ones: &Option<Pattern>, zeros: &Option<Pattern>) -> bool
    ensures { result ≡ leaves.flag_patterns_fine ones.now zeros.now }
{
    match (ones, zeros) {
        (None, None) => true,
        (Some(pattern), None) => is_pattern(pattern),
        (None, Some(pattern)) => is_pattern(pattern),
        (Some(one), Some(zero)) => {
            is_pattern(one)
                && one.bits().len() == zero.bits().len()
                && !same_bits(one.bits(), zero.bits())
        }
    }
}

fn from_to(low: u32, high: u32, n: u32) -> bool
    ensures { result ≡ leaves.from_to low high n }
{
    low <= n && n <= high
}

// Whether widths and patterns are ones that the coding can have.
pub fn coding_fine(coding: &NumCoding) -> bool
    ensures { result ≡ leaves.coding_fine coding.now }
{
    match coding {
        NumCoding::PosInt(n) | NumCoding::Twos(n) => from_to(1, MOST_INTEGER_BITS, *n),
        NumCoding::Bcd(n) => from_to(4, 76, *n) && *n % 4 == 0,
        NumCoding::Ascii { bits, signed } => {
            let least = if *signed { 16 } else { 8 };
            from_to(least, 152, *bits) && *bits % 8 == 0
        }
        NumCoding::AsciiEnded { end, .. } => is_terminator(end) && !begins_number(end),
        NumCoding::Flag { yes, no } => flag_patterns_fine(yes, no),
        NumCoding::Fixed(pattern) => is_pattern(pattern),
        _ => true,
    }
}

/// Whether the octets can stand in the other order.
pub fn can_be_little(coding: &NumCoding) -> bool
    ensures { result ≡ leaves.can_be_little coding.now }
{
    match coding {
        NumCoding::PosInt(n) | NumCoding::Twos(n) => *n % 8 == 0,
        _ => false,
    }
}

pub fn is_signed_text(coding: &NumCoding) -> bool
    ensures { result ≡ leaves.is_signed_text coding.now }
{
    match coding {
        NumCoding::Ascii { signed, .. } | NumCoding::AsciiEnded { signed, .. } => *signed,
        _ => false,
    }
}

pub fn begins_below_zero(set: &RangeSet) -> bool
    ensures { result ≡ leaves.begins_below_zero set.now }
{
    match set.ranges().first() {
        Some(range) => range.0 < 0,
        None => false,
    }
}

// Whether the number lies below the bound.
fn lies_below(x: &i128, bound: u128) -> bool
    requires { bound < 2 ^ 127 }
    ensures { result ≡ int_lt x.now (pos bound) }
{
    *x < bound as i128
}

// Whether the number is at least as great as the negative of the bound.
fn reaches_down_to(x: &i128, bound: u128) -> bool
    requires { bound < 2 ^ 127 }
    ensures { result ≡ int_le (neg_ℤ (pos bound)) x.now }
{
    -(bound as i128) <= *x
}

/// Whether the number lies between `LEAST_NUMBER` and `GREATEST_NUMBER`.
pub fn is_number(x: &i128) -> bool
    ensures { result ≡ leaves.is_number x.now }
{
    reaches_down_to(x, 1 << 63) && lies_below(x, 1 << 64)
}

/// Whether the set is this one range.
pub fn is_range(low: &i128, high: &i128, set: &RangeSet) -> bool
    ensures { result ≡ leaves.is_range low.now high.now set.now }
{
    let ranges = set.ranges();
    if ranges.len() != 1 {
        return false;
    }
    let range = &ranges[0];
    range.0 == *low && range.1 == *high
}

fn ten_to(digits: u32) -> u128
    requires { digits ≤ 19 }
    ensures value { result ≡ 10 ^ digits }
    ensures small { result < 2 ^ 64 }
{
    10u64.pow(digits) as u128
}

// Whether the numbers have `digits` decimal digits at most and none is negative.
fn fits_digits(low: &i128, high: &i128, digits: u32) -> bool
    requires { digits ≤ 19 }
    ensures { result ≡ (int_le (pos 0) low.now && int_lt high.now (pos (10 ^ digits))) }
{
    0 <= *low && lies_below(high, ten_to(digits))
}

// Whether the numbers have `digits` decimal digits at most behind their sign.
fn fits_signed_digits(low: &i128, high: &i128, digits: u32) -> bool
    requires { digits ≤ 19 }
    ensures { result ≡ (int_lt (neg_ℤ (pos (10 ^ digits))) low.now && int_lt high.now (pos (10 ^ digits))) }
{
    let bound = ten_to(digits);
    -(bound as i128) < *low && lies_below(high, bound)
}

// Whether the coding can write every number from `low` to `high`, which it has to.
pub fn can_write(coding: &NumCoding, low: &i128, high: &i128) -> bool
    requires { leaves.coding_fine coding.now ≡ true }
    ensures { result ≡ leaves.can_write coding.now (low.now, high.now) }
{
    match coding {
        NumCoding::Range { low: first, width } => {
            *first == *low && is_least(apart(low, high), *width)
        }
        NumCoding::CountedFrom { low: first } => *first == *low,
        NumCoding::PosInt(n) => 0 <= *low && lies_below(high, 1 << *n),
        NumCoding::Twos(n) => {
            let bound = 1u128 << (*n - 1);
            reaches_down_to(low, bound) && lies_below(high, bound)
        }
        NumCoding::Bcd(n) => fits_digits(low, high, *n / 4),
        NumCoding::Ascii { bits, signed } => {
            if *signed {
                fits_signed_digits(low, high, *bits / 8 - 1)
            } else {
                fits_digits(low, high, *bits / 8)
            }
        }
        NumCoding::AsciiEnded { signed, .. } => {
            if *signed {
                reaches_down_to(low, 1 << 63) && lies_below(high, 1 << 63)
            } else {
                0 <= *low && lies_below(high, 1 << 64)
            }
        }
        NumCoding::BcdEnded => 0 <= *low && lies_below(high, 1 << 64),
        NumCoding::CountedSigned | NumCoding::Flag { .. } | NumCoding::Fixed(_) => true,
    }
}
