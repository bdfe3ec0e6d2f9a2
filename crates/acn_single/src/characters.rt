//! The least characters of alphabets, and those that a terminator doesn't begin with.

ghost use Rattle.std.specs.Ordering.{int_eq};
ghost use Rattle.std.specs.Prelude.{◌≡◌, ◌≤◌, ◌≤ℤ◌, pos, length, take, option_map, slice_get, unwrap_or, true, List, ℤ, ◌∷◌};
ghost use Rattle.acn_num.specs.Bits.{number, weight};
ghost use Rattle.acn_num.specs.Ranges.{all_within};
ghost use Rattle.acn_grammar.specs.Code.{in_octets};
ghost use Rattle.acn_grammar.specs.Length.{least as least_number};
ghost use Rattle.acn_extreme_laws.specs.Best as best;
ghost use Rattle.acn_extreme_laws.specs.Facts as facts;
ghost use Rattle.acn_extreme_laws.specs.Laws.{Ordered};
ghost use Rattle.acn_extreme_laws.specs.Reach as reach;

use acn_num::RangeSet;
use acn_tree::Pattern;

fn worth(bit: bool) -> u32
    ensures value { result ≡ weight bit }
    ensures small { result ≤ 1 }
{
    if bit { 1 } else { 0 }
}

// The number of the first octet.
fn octet(bits: &[bool]) -> u32
    requires { 8 ≤ length bits.now }
    ensures { result ≡ number (take 8 bits.now) }
{
    worth(bits[0]) * 128
        + worth(bits[1]) * 64
        + worth(bits[2]) * 32
        + worth(bits[3]) * 16
        + worth(bits[4]) * 8
        + worth(bits[5]) * 4
        + worth(bits[6]) * 2
        + worth(bits[7])
}

// The number of the first octet, where there is a whole one.
fn first_octet(end: &Pattern) -> Option<u32>
    ensures { result ≡ option_map number (slice_get (in_octets end.now) 0) }
{
    let bits = end.bits();
    if bits.len() < 8 {
        None
    } else {
        Some(octet(bits))
    }
}

fn is_number(a: &i128, b: &i128) -> bool
    ensures { result ≡ int_eq a.now b.now }
{
    *a == *b
}

// The number of a character.
fn character(x: &i128) -> u8
    requires least { pos 0 ≤ℤ x.now }
    requires small { x.now ≤ℤ pos 127 }
    ensures { result ≡ reach.natural x.now }
{
    let number = *x;
    number as u8
}

// The least number of a range that is another.
fn other_in(range: &(i128, i128), x: &i128) -> Option<u8>
    requires low { pos 0 ≤ℤ range.now.0 }
    requires high { range.now.1 ≤ℤ pos 127 }
    requires order { range.now.0 ≤ℤ range.now.1 }
    ensures { (rs : List (ℤ × ℤ)) → best.other_than x.now (range.now ∷ rs) ≡ unwrap_or result (best.other_than x.now rs) }
{
    if !is_number(&range.0, x) {
        Some(character(&range.0))
    } else if range.0 < range.1 {
        Some(character(&(range.0 + 1)))
    } else {
        None
    }
}

// The least number of ranges that is another.
fn other_than(x: &i128, ranges: &[(i128, i128)]) -> u8
    requires within { all_within (pos 0) (pos 127) ranges.now ≡ true }
    requires order { Ordered ranges.now }
    ensures { result ≡ best.other_than x.now ranges.now }
{
    for range in ranges {
        if let Some(other) = other_in(range, x) {
            return other;
        }
    }
    0
}

/// The least character of an alphabet.
pub fn least_character(alphabet: &RangeSet) -> u8
    requires { all_within (pos 0) (pos 127) alphabet.now ≡ true }
    ensures { result ≡ reach.natural (least_number alphabet.now) }
{
    let _ranges = alphabet.ranges();
    match alphabet.least() {
        Some(x) => character(&x),
        None => 0,
    }
}

/// The least character of the alphabet that the terminator doesn't begin with, where there is one.
pub fn other_character(end: &Pattern, alphabet: &RangeSet) -> u8
    requires { all_within (pos 0) (pos 127) alphabet.now ≡ true }
    ensures { result ≡ best.other_by end.now alphabet.now }
{
    match first_octet(end) {
        None => least_character(alphabet),
        Some(first) => other_than(&i128::from(first), alphabet.ranges()),
    }
}

// Whether the terminator begins with the character.
fn begins_with(pattern: &Pattern, character: u8) -> bool
    ensures { result ≡ facts.begins_with (slice_get (in_octets pattern.now) 0) character }
{
    match first_octet(pattern) {
        None => false,
        Some(first) => u32::from(character) == first,
    }
}

/// Whether the alphabet has a character that the terminator doesn't begin with.
pub fn other_there(end: &Option<Pattern>, alphabet: &RangeSet) -> bool
    requires { all_within (pos 0) (pos 127) alphabet.now ≡ true }
    ensures { result ≡ facts.other_there end.now alphabet.now }
{
    match end {
        None => true,
        Some(pattern) => {
            let other = other_character(pattern, alphabet);
            alphabet.holds_natural(u64::from(other)) && !begins_with(pattern, other)
        }
    }
}
