//! Whether a code of a leaf begins with a pattern.
ghost use Rattle.std.specs.Prelude.{◌≡◌, ◌≤◌, suc, [], ◌∷◌, None, ◌/◌, ◌^◌, ◌-◌, neg_ℤ, pos, length, true, map};
ghost use Rattle.std.specs.List.{list_any};
ghost use Rattle.acn_num.specs.Bits.{number};
ghost use Rattle.acn_num.specs.Ranges.{distance};
ghost use Rattle.acn_grammar.specs.Images.{images_of};
ghost use Rattle.acn_grammar.specs.Leaves.{num_fine, same_bits};
ghost use Rattle.acn_grammar.specs.declared.limits.TheConstants.{MOST_PATTERN_BITS};
ghost use Rattle.acn_grammar.specs.declared.node.NumCoding.TheVariants.{Flag};
ghost use Rattle.acn_leads.specs.Begins as spec;

use acn_grammar::{Items, NumCoding, NumLeaf, Pattern};
use acn_num::RangeSet;

// The number that bits spell.
fn number_of(bits: &[bool]) -> u64
    requires { length bits.now ≤ MOST_PATTERN_BITS }
    ensures { result ≡ number bits.now }
{
    let mut n = 0u64;
    for bit in bits {
        n = 2 * n + u64::from(*bit);
    }
    n
}

fn half_of(bits: usize) -> u64
    requires { bits ≤ 63 }
    ensures { result ≡ 2 ^ bits }
{
    1u64 << bits
}

// The number that bits spell after one more.
fn with_one(rest: &[bool]) -> u64
    requires { suc (length rest.now) ≤ MOST_PATTERN_BITS }
    ensures { result ≡ number (true ∷ rest.now) }
{
    let half = half_of(rest.len());
    half + number_of(rest)
}

// The number that bits spell with the first of them turned.
fn turned_number(bits: &[bool]) -> u64
    requires { length bits.now ≤ MOST_PATTERN_BITS }
    ensures { result ≡ number (spec.turned bits.now) }
{
    match bits.split_first() {
        None => 0,
        Some((first, rest)) => {
            if *first {
                number_of(rest)
            } else {
                with_one(rest)
            }
        }
    }
}

fn far_of(low: &i128, x: &i128) -> u128
    ensures { result ≡ distance low.now x.now }
{
    x.abs_diff(*low)
}

// How far the number is from the low end, without its last bits.
fn above(low: &i128, x: &i128, bits: u32) -> u128
    ensures { result ≡ distance low.now x.now / 2 ^ bits }
{
    let far = far_of(low, x);
    if bits >= 128 { 0 } else { far >> bits }
}

fn hits(low: &i128, bits: u32, wanted: u64, first: &i128, last: &i128) -> bool
    ensures { result ≡ spec.hits low.now bits wanted (first.now, last.now) }
{
    let wanted = u128::from(wanted);
    low <= last
        && wanted <= above(low, last, bits)
        && (first < low || above(low, first, bits) <= wanted)
}

fn range_hit(low: &i128, bits: u32, wanted: u64, set: &RangeSet) -> bool
    ensures { result ≡ list_any (spec.hits low.now bits wanted) set.now }
{
    for range in set.ranges() {
        if hits(low, bits, wanted, &range.0, &range.1) {
            return true;
        }
    }
    false
}

fn item_hit(low: &i128, bits: u32, wanted: u64, items: &Items) -> bool
    ensures { result ≡ list_any (spec.hits low.now bits wanted) (map (λ named. (named.1, named.1)) items.now.items) }
{
    for item in items.items.items() {
        if hits(low, bits, wanted, &item.1, &item.1) {
            return true;
        }
    }
    false
}

fn image_hit(low: &i128, bits: u32, wanted: u64, leaf: &NumLeaf) -> bool
    requires { leaf.now.table ≡ None }
    ensures { result ≡ list_any (spec.hits low.now bits wanted) (images_of leaf.now) }
{
    if leaf.items.values {
        item_hit(low, bits, wanted, &leaf.items)
    } else {
        range_hit(low, bits, wanted, &leaf.set)
    }
}

fn same(a: &[bool], b: &[bool]) -> bool
    ensures { result ≡ same_bits a.now b.now }
{
    a == b
}

// Whether the bits begin with the pattern.
fn begins(pattern: &[bool], whole: &Pattern) -> bool
    ensures { result ≡ spec.begins pattern.now whole.now }
{
    let whole = whole.bits();
    pattern.len() <= whole.len() && same(&whole[..pattern.len()], pattern)
}

// With one pattern alone each value of that length is a code.
fn flag_begins(pattern: &[bool], yes: &Option<Pattern>, no: &Option<Pattern>) -> bool
    ensures { result ≡ spec.begins_by pattern.now (Flag yes.now no.now) [] }
{
    match (yes, no) {
        (Some(one), Some(zero)) => begins(pattern, one) || begins(pattern, zero),
        (Some(_), None) => true,
        (None, Some(_)) => true,
        (None, None) => true,
    }
}

// The least number of so many bits in two's complement.
fn least_of(width: u32) -> i128
    requires some { 1 ≤ width }
    requires few { width ≤ MOST_PATTERN_BITS }
    ensures { result ≡ neg_ℤ (pos (2 ^ (width - 1))) }
{
    -(1i128 << (width - 1))
}

/// Whether a code of the leaf begins with the pattern.
pub fn can_begin(pattern: &[bool], leaf: &NumLeaf) -> bool
    requires few { length pattern.now ≤ MOST_PATTERN_BITS }
    requires fine { num_fine leaf.now ≡ true }
    requires plain { leaf.now.table ≡ None }
    ensures { result ≡ spec.can_begin pattern.now leaf.now }
{
    let bits = pattern.len() as u32;
    match &leaf.coding {
        NumCoding::Range { low, width } => {
            image_hit(low, width.saturating_sub(bits), number_of(pattern), leaf)
        }
        NumCoding::PosInt(width) => {
            image_hit(&0, width.saturating_sub(bits), number_of(pattern), leaf)
        }
        NumCoding::Twos(width) => {
            let least = least_of(*width);
            image_hit(
                &least,
                width.saturating_sub(bits),
                turned_number(pattern),
                leaf,
            )
        }
        NumCoding::Flag { yes, no } => flag_begins(pattern, yes, no),
        NumCoding::Fixed(whole) => begins(pattern, whole),
        _ => false,
    }
}
