//! Numbers, sizes and strings of a shortest and a longest packet.

ghost use Rattle.std.specs.Ordering.{int_eq};
ghost use Rattle.std.specs.Prelude.{◌≡◌, ◌+◌, ◌≤ℤ◌, ◌<ℤ◌, ◌^◌, ◌≤◌, IfOk, IsTrue, option_map, replicate, pos, length, Some, false};
ghost use Rattle.acn_grammar.specs.Grammar.{Fields, num, octets as octets_form, bits as bits_form, text as text_form};
ghost use Rattle.acn_grammar.specs.Images.{ends};
ghost use Rattle.acn_grammar.specs.Leaves.{num_fine, sizes_fine, text_fine};
ghost use Rattle.acn_grammar.specs.Length.{rule_width, index_width, ending};
ghost use Rattle.acn_grammar.specs.View.{data_of, field_of, fields_view, grammar_of, with_field};
ghost use Rattle.acn_extreme_laws.specs.Best as best;
ghost use Rattle.acn_extreme_laws.specs.Reach as reach;
ghost use Rattle.acn_extremes.specs.Ways.{AreSizes, ends_of as ends_told, value_way, elements_way, list_start, list_ending};

use crate::characters::character_by;
use crate::slots::met_with;
use crate::ways::{SizeEnds, Way, behind, behind_parts};
use acn_extreme_laws::{Side, one_number_is_best};
use acn_extreme_numbers::number_at;
use acn_ints::code_length;
use acn_num::{NoMemory, RangeSet, Row};
use acn_single::Slots;
use acn_tree::{
    ChoiceRule, Field, NumKind, NumLeaf, Pattern, Presence, SizeRule, Sizing, TextLeaf, Value,
};
use std::alloc::Global;

/// How many items a number of 32 bits can tell apart.
const MOST_ITEMS: i128 = 1 << 32;

// A number that isn't below zero.
fn natural(x: &i128) -> u64
    requires least { pos 0 ≤ℤ x.now }
    requires small { x.now <ℤ pos (2 ^ 64) }
    ensures { pos result ≡ x.now }
{
    let number = *x;
    number as u64
}

fn is_one(x: &i128) -> bool
    ensures { result ≡ int_eq x.now (pos 1) }
{
    *x == 1
}

// An item of this index. One that has more than 32 bits can't be told, which is answered as want of memory.
fn item(x: &i128) -> Result<Value, NoMemory>
    ensures { IfOk result (λ v. data_of v ≡ best.number_data NumKind.Enumerated x.now) }
{
    let index = *x;
    if 0 <= index && index < MOST_ITEMS {
        Ok(Value::Item(index as u32))
    } else {
        Err(NoMemory)
    }
}

// The value of a leaf's number.
fn number_value(kind: NumKind, x: &i128) -> Result<Value, NoMemory>
    ensures { IfOk result (λ v. data_of v ≡ best.number_data kind x.now) }
{
    match kind {
        NumKind::Integer => Ok(Value::Int(*x)),
        NumKind::Boolean => Ok(Value::Bool(is_one(x))),
        NumKind::Enumerated => item(x),
        NumKind::Null => Ok(Value::Null),
    }
}

/// A number with a shortest code, or with a longest.
pub fn best_number(
    leaf: &NumLeaf,
    slots: &Slots<'_>,
    side: Side,
    at: u64,
) -> Result<Way<Value>, NoMemory>
    requires { IsTrue (num_fine leaf.now) }
    ensures { IfOk result (λ w. Some (value_way w) ≡ best.form_best (grammar_of slots.now.root.now) side (num leaf.now) at) }
{
    one_number_is_best();
    let x = number_at(side, leaf);
    let length = code_length(leaf, x);
    Ok(Way {
        end: behind(at, length),
        made: number_value(leaf.kind, &x)?,
    })
}

/// The least and the greatest number of a set.
pub fn set_ends(set: &RangeSet) -> Option<SizeEnds>
    requires { AreSizes set.now }
    ensures { option_map ends_told result ≡ ends set.now }
{
    let _ranges = set.ranges();
    match set.least() {
        None => None,
        Some(low) => match set.greatest() {
            None => None,
            Some(high) => Some(SizeEnds {
                low: natural(&low),
                high: natural(&high),
            }),
        },
    }
}

/// The sizes that the slot permits too.
pub fn sizes_can(alloc: Global, sizing: &Sizing, slots: &Slots<'_>) -> Result<RangeSet, NoMemory>
    requires { IsTrue (sizes_fine sizing.now.sizes) }
    ensures sizes { IfOk result (λ both. both ≡ reach.sizes_can (grammar_of slots.now.root.now) sizing.now) }
    ensures small { IfOk result (λ both. AreSizes both) }
{
    match &sizing.rule {
        SizeRule::Slot(slot) => {
            let both = met_with(alloc, slots, *slot, &sizing.sizes)?;
            Ok(both)
        }
        SizeRule::Prefix { .. } => Ok(sizing.sizes.copy(alloc)?),
        SizeRule::Ended(_) => Ok(sizing.sizes.copy(alloc)?),
    }
}

/// The end on this side.
pub fn end_of(side: Side, ends: SizeEnds) -> u64
    ensures { pos result ≡ best.end_of side (ends_told ends) }
{
    match side {
        Side::Shortest => ends.low,
        Side::Longest => ends.high,
    }
}

// The size on this side.
fn best_size(
    alloc: Global,
    sizing: &Sizing,
    slots: &Slots<'_>,
    side: Side,
) -> Result<Option<u64>, NoMemory>
    requires { IsTrue (sizes_fine sizing.now.sizes) }
    ensures { IfOk result (λ n. n ≡ best.size_by side (ends (reach.sizes_can (grammar_of slots.now.root.now) sizing.now))) }
{
    let sizes = sizes_can(alloc, sizing, slots)?;
    match set_ends(&sizes) {
        None => Ok(None),
        Some(ends) => Ok(Some(end_of(side, ends))),
    }
}

/// The bits of a size in front.
pub fn size_bits(rule: &SizeRule) -> u64
    ensures { result ≡ rule_width rule.now }
{
    match rule {
        SizeRule::Prefix { width, .. } => u64::from(*width),
        SizeRule::Slot(_) => 0,
        SizeRule::Ended(_) => 0,
    }
}

/// The bits of an index in front.
pub fn index_bits(rule: ChoiceRule) -> u64
    ensures { result ≡ index_width rule }
{
    match rule {
        ChoiceRule::Index(width) => u64::from(width),
        ChoiceRule::Tests => 0,
        ChoiceRule::Item(_) => 0,
    }
}

/// Where a list's elements begin.
pub fn elements_start(rule: &SizeRule, at: u64) -> u64
    ensures { result ≡ list_start (ending rule.now) rule.now at }
{
    match rule {
        SizeRule::Prefix { .. } => behind(at, size_bits(rule)),
        SizeRule::Slot(_) => behind(at, size_bits(rule)),
        SizeRule::Ended(_) => at,
    }
}

fn pattern_bits(pattern: &Pattern) -> u64
    ensures { result ≡ length pattern.now }
{
    pattern.bits().len() as u64
}

// The bits of the pattern behind a list's elements.
fn ending_bits(rule: &SizeRule) -> u64
    ensures { result ≡ list_ending (ending rule.now) }
{
    match rule {
        SizeRule::Prefix { .. } => 0,
        SizeRule::Slot(_) => 0,
        SizeRule::Ended(pattern) => pattern_bits(pattern),
    }
}

/// The list of these elements.
pub fn listed(rule: &SizeRule, elements: Way<Row<Value>>) -> Way<Value>
    ensures { Some (value_way result) ≡ best.list_way (list_ending (ending rule.now)) (Some (elements_way elements)) }
{
    Way {
        end: behind(elements.end, ending_bits(rule)),
        made: Value::List(elements.made),
    }
}

fn presence_bit(field: &Field) -> u64
    ensures value { (fs : Fields) → reach.presence_count (with_field (field_of field.now) fs) ≡ result + reach.presence_count fs }
    ensures small { result ≤ 1 }
{
    match field {
        Field::Component { presence, .. } => match presence {
            Presence::Always => 0,
            Presence::Bit => 1,
            Presence::When(_) => 0,
        },
        Field::Inserted { .. } => 0,
    }
}

/// How many presence bits stand in front of the fields.
pub fn presence_count(fields: &[Field]) -> u64
    ensures { result ≡ reach.presence_count (fields_view fields.now) }
{
    let mut count = 0u64;
    for field in fields {
        count += presence_bit(field);
    }
    count
}

// So many zeros.
fn zero_octets(alloc: Global, n: u64) -> Result<Row<u8>, NoMemory>
    ensures { IfOk result (λ os. os ≡ replicate n 0) }
{
    repeated(alloc, 0, n)
}

// So many times the same octet.
fn repeated(alloc: Global, octet: u8, n: u64) -> Result<Row<u8>, NoMemory>
    ensures { IfOk result (λ os. os ≡ replicate n octet) }
{
    Ok(Row::from_vec(vec![in alloc; octet; n as usize]?))
}

// So many zeros.
fn zero_bits(alloc: Global, n: u64) -> Result<Row<bool>, NoMemory>
    ensures { IfOk result (λ bs. bs ≡ replicate n false) }
{
    Ok(Row::from_vec(vec![in alloc; false; n as usize]?))
}

/// Octets, all of them zero.
pub fn best_octets(
    alloc: Global,
    sizing: &Sizing,
    slots: &Slots<'_>,
    side: Side,
    at: u64,
) -> Result<Option<Way<Value>>, NoMemory>
    requires { IsTrue (sizes_fine sizing.now.sizes) }
    ensures { IfOk result (λ w. option_map value_way w ≡ best.form_best (grammar_of slots.now.root.now) side (octets_form sizing.now) at) }
{
    match best_size(alloc, sizing, slots, side)? {
        None => Ok(None),
        Some(n) => Ok(Some(Way {
            end: behind_parts(behind(at, size_bits(&sizing.rule)), 8, n),
            made: Value::Octets(zero_octets(alloc, n)?),
        })),
    }
}

/// Bits, all of them zero.
pub fn best_bits(
    alloc: Global,
    sizing: &Sizing,
    slots: &Slots<'_>,
    side: Side,
    at: u64,
) -> Result<Option<Way<Value>>, NoMemory>
    requires { IsTrue (sizes_fine sizing.now.sizes) }
    ensures { IfOk result (λ w. option_map value_way w ≡ best.form_best (grammar_of slots.now.root.now) side (bits_form sizing.now) at) }
{
    match best_size(alloc, sizing, slots, side)? {
        None => Ok(None),
        Some(n) => Ok(Some(Way {
            end: behind_parts(behind(at, size_bits(&sizing.rule)), 1, n),
            made: Value::Bits(zero_bits(alloc, n)?),
        })),
    }
}

// What stands beside the characters of a text.
fn text_around(leaf: &TextLeaf) -> u64
    ensures { result ≡ reach.text_around leaf.now.ended leaf.now }
{
    match &leaf.ended {
        None => size_bits(&leaf.sized.rule),
        Some(end) => pattern_bits(end),
    }
}

// Where characters have no bits the least size serves on both sides.
fn side_by(width: u64, side: Side) -> Side
    ensures { result ≡ best.side_by width side }
{
    if width == 0 { Side::Shortest } else { side }
}

/// A text of one character.
pub fn best_text(
    alloc: Global,
    leaf: &TextLeaf,
    slots: &Slots<'_>,
    side: Side,
    at: u64,
) -> Result<Option<Way<Value>>, NoMemory>
    requires { IsTrue (text_fine leaf.now) }
    ensures { IfOk result (λ w. option_map value_way w ≡ best.form_best (grammar_of slots.now.root.now) side (text_form leaf.now) at) }
{
    let character = character_by(&leaf.ended, &leaf.alphabet);
    let width = u64::from(leaf.width);
    match best_size(alloc, &leaf.sized, slots, side_by(width, side))? {
        None => Ok(None),
        Some(n) => Ok(Some(Way {
            end: behind_parts(behind(at, text_around(leaf)), width, n),
            made: Value::Text(repeated(alloc, character, n)?),
        })),
    }
}
