ghost use Rattle.std.specs.Prelude.{◌≡◌, ◌&&◌, ◌^◌, pos, int_le, ◌<◌, nat_lt, nat_eq, length, true};
ghost use Rattle.acn_num.specs.Bits.{is_least_width};
ghost use Rattle.acn_num.specs.Ranges as ranges;
ghost use Rattle.acn_num.specs.Ranges.{count, distance, greatest, least};
ghost use Rattle.acn_grammar.specs.Leaves as leaves;
ghost use Rattle.acn_grammar.specs.Length.{ending};

use acn_grammar::{Pattern, SizeRule, Sizing, TextLeaf};
use acn_num::{MOST_SIZE, RangeSet};

/// The greatest size, as a number of a set.
const GREATEST_SIZE: i128 = MOST_SIZE as i128;

/// Whether the width is the least in bits that holds the number.
pub fn is_least(span: u128, width: u32) -> bool
    ensures { result ≡ is_least_width span width }
{
    if width == 0 {
        span == 0
    } else if width > 128 {
        false
    } else {
        span / (1u128 << (width - 1)) == 1
    }
}

/// How far apart two numbers are.
pub fn apart(low: &i128, high: &i128) -> u128
    ensures { result ≡ distance low.now high.now }
{
    high.abs_diff(*low)
}

/// Whether the ranges of the set are in order, as those of each set are.
pub fn in_order(set: &RangeSet) -> bool
    ensures { result ≡ ranges.are_ranges set.now }
{
    let _ranges = set.ranges();
    true
}

/// Whether there is a number in the set, whose ranges are in order.
pub fn holds_some(set: &RangeSet) -> bool
    ensures { result ≡ (nat_lt 0 (length set.now) && ranges.are_ranges set.now) }
{
    !set.ranges().is_empty()
}

// Whether every number of the range lies from `low` to `high`.
fn is_within(low: &i128, high: &i128, range: &(i128, i128)) -> bool
    ensures { result ≡ (int_le low.now range.now.0 && int_le range.now.1 high.now) }
{
    *low <= range.0 && range.1 <= *high
}

/// Whether every number of the set lies from `low` to `high`.
pub fn all_within(low: &i128, high: &i128, set: &RangeSet) -> bool
    ensures { result ≡ ranges.all_within low.now high.now set.now }
{
    for range in set.ranges() {
        if !is_within(low, high, range) {
            return false;
        }
    }
    true
}

// Whether the sizes are some numbers from 0 to `MOST_SIZE`.
fn sizes_fine(sizes: &RangeSet) -> bool
    ensures { result ≡ leaves.sizes_fine sizes.now }
{
    holds_some(sizes) && all_within(&0, &GREATEST_SIZE, sizes)
}

// Whether a size in front is a range over the sizes.
fn prefix_fine(low: u64, width: u32, sizes: &RangeSet) -> bool
    ensures { result ≡ leaves.prefix_fine low width (least sizes.now) (greatest sizes.now) }
{
    match (sizes.least(), sizes.greatest()) {
        (Some(first), Some(last)) => low as i128 == first && is_least(apart(&first, &last), width),
        _ => false,
    }
}

fn rule_fine(sizes: &RangeSet, rule: &SizeRule) -> bool
    ensures { result ≡ leaves.rule_fine sizes.now rule.now }
{
    match rule {
        SizeRule::Slot(_) => true,
        SizeRule::Prefix { low, width } => prefix_fine(*low, *width, sizes),
        SizeRule::Ended(_) => false,
    }
}

/// Whether sizes and their rule are well formed.
pub fn sizing_fine(sizing: &Sizing) -> bool
    ensures { result ≡ leaves.sizing_fine sizing.now }
{
    sizes_fine(&sizing.sizes) && rule_fine(&sizing.sizes, &sizing.rule)
}

// Whether a list's size, or the pattern that ends it, is well formed.
fn list_rule_fine(sizing: &Sizing) -> bool
    ensures { result ≡ leaves.list_rule_fine (ending sizing.now.rule) sizing.now }
{
    match &sizing.rule {
        SizeRule::Ended(pattern) => is_pattern(pattern),
        SizeRule::Slot(_) => true,
        SizeRule::Prefix { low, width } => prefix_fine(*low, *width, &sizing.sizes),
    }
}

/// Whether the sizes of a list and their rule are well formed.
pub fn list_fine(sizing: &Sizing) -> bool
    ensures { result ≡ leaves.list_fine sizing.now }
{
    sizes_fine(&sizing.sizes) && list_rule_fine(sizing)
}

// Whether there is no size in front.
fn no_size(rule: &SizeRule) -> bool
    ensures { result ≡ leaves.no_size rule.now }
{
    match rule {
        SizeRule::Slot(_) => false,
        SizeRule::Prefix { low, width } => *low == 0 && *width == 0,
        SizeRule::Ended(_) => false,
    }
}

/// Whether a pattern has 1 to `MOST_PATTERN_BITS` bits, which each has.
pub fn is_pattern(pattern: &Pattern) -> bool
    ensures { result ≡ leaves.is_pattern pattern.now }
{
    let bits = pattern.bits();
    !bits.is_empty()
}

// Whether the width is the least in which as many characters as the alphabet has have numbers of their own.
fn holds_characters(alphabet: &RangeSet, width: u32) -> bool
    requires { 0 < length alphabet.now }
    ensures { result ≡ leaves.holds_characters (count alphabet.now) width }
{
    is_least(alphabet.count() - 1, width)
}

// Whether the number has more bits than the width.
fn is_past(width: u32, x: &i128) -> bool
    ensures { result ≡ int_le (pos (2 ^ width)) x.now }
{
    let number = *x;
    width < 127 && 1i128 << width <= number
}

// Whether the greatest character's number is beyond the width.
fn is_beyond(width: u32, alphabet: &RangeSet) -> bool
    requires { 0 < length alphabet.now }
    ensures { result ≡ leaves.is_beyond width (greatest alphabet.now) }
{
    match alphabet.greatest() {
        Some(last) => is_past(width, &last),
        None => false,
    }
}

// 8 bits a character, or the fewest, indexed where the greatest character's number is beyond them.
fn width_fine(leaf: &TextLeaf) -> bool
    requires { 0 < length leaf.now.alphabet }
    ensures { result ≡ leaves.width_fine leaf.now }
{
    if leaf.width == 8 && !leaf.indexed {
        return true;
    }
    holds_characters(&leaf.alphabet, leaf.width)
        && leaf.indexed == is_beyond(leaf.width, &leaf.alphabet)
}

/// Whether the terminator is 1 to 8 whole octets.
pub fn is_terminator(end: &Pattern) -> bool
    ensures { result ≡ leaves.is_terminator end.now }
{
    end.bits().len() % 8 == 0
}

fn end_fine(leaf: &TextLeaf) -> bool
    requires { 0 < length leaf.now.alphabet }
    ensures { result ≡ leaves.end_fine leaf.now.ended leaf.now }
{
    match &leaf.ended {
        None => rule_fine(&leaf.sized.sizes, &leaf.sized.rule) && width_fine(leaf),
        Some(end) => {
            no_size(&leaf.sized.rule) && leaf.width == 8 && !leaf.indexed && is_terminator(end)
        }
    }
}

/// Whether the leaf of a text is well formed.
pub fn text_fine(leaf: &TextLeaf) -> bool
    ensures { result ≡ leaves.text_fine leaf.now }
{
    sizes_fine(&leaf.sized.sizes)
        && holds_some(&leaf.alphabet)
        && all_within(&0, &127, &leaf.alphabet)
        && end_fine(leaf)
}
