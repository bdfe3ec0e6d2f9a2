ghost use Rattle.std.specs.Prelude.{◌≡◌, ◌+◌, ◌*◌, ◌<◌, ◌≤◌, ◌^◌, min, length, IsTrue};
ghost use Rattle.acn_num.specs.Bits.{octets as octets_for};
ghost use Rattle.acn_num.specs.Ranges.{In};
ghost use Rattle.acn_grammar.specs.Leaves.{num_fine};
ghost use Rattle.acn_grammar.specs.Length.{padding, rule_width, index_width, text_length, num_length, inserted_length, number_of as number_of_data, least as least_number};
ghost use Rattle.acn_grammar.specs.View.{data_of, grammar_of};
ghost use Rattle.acn_lengths.specs.Measured.{CanMeasureField};

use acn_grammar::{Body, ChoiceRule, Node, NumLeaf, Pattern, SizeRule, TextLeaf, Value};
use acn_ints::code_length;
use acn_num::RangeSet;

/// Places of bits are held down to this.
pub const MOST_BITS: u64 = 1 << 40;

/// The place that is this far behind another.
pub fn behind(at: u64, n: u64) -> u64
    ensures value { result ≡ min (at + n) (2 ^ 40) }
    ensures small { result ≤ 2 ^ 40 }
{
    at.saturating_add(n).min(MOST_BITS)
}

/// The place behind the padding.
pub fn padded(align: u32, at: u64) -> u64
    requires positive { 0 < align }
    requires small { at ≤ 2 ^ 40 }
    ensures value { result ≡ min (at + padding align at) (2 ^ 40) }
    ensures small { result ≤ 2 ^ 40 }
{
    let align = u64::from(align);
    behind(at, (align - at % align) % align)
}

/// The bits of a size in front.
pub fn size_bits(rule: &SizeRule) -> u64
    ensures value { result ≡ rule_width rule.now }
    ensures small { result < 2 ^ 32 }
{
    match rule {
        SizeRule::Prefix { width, .. } => u64::from(*width),
        SizeRule::Slot(_) => 0,
        SizeRule::Ended(_) => 0,
    }
}

/// The bits of an index in front.
pub fn index_bits(rule: &ChoiceRule) -> u64
    ensures { result ≡ index_width rule.now }
{
    match rule {
        ChoiceRule::Index(width) => u64::from(*width),
        ChoiceRule::Tests => 0,
        ChoiceRule::Item(_) => 0,
    }
}

/// The bits of so many parts of a width.
pub fn bits_of(width: u64, n: u64) -> u64
    ensures { result ≡ min (width * n) (2 ^ 40) }
{
    width.saturating_mul(n).min(MOST_BITS)
}

pub fn end_bits(end: &Pattern) -> u64
    ensures { result ≡ length end.now }
{
    end.bits().len() as u64
}

/// The place behind a text of so many characters.
pub fn text_end(leaf: &TextLeaf, at: u64, n: u64) -> u64
    requires { at ≤ 2 ^ 40 }
    ensures value { result ≡ min (at + text_length leaf.now.ended leaf.now n) (2 ^ 40) }
    ensures small { result ≤ 2 ^ 40 }
{
    let text = bits_of(u64::from(leaf.width), n);
    match &leaf.ended {
        None => behind(behind(at, size_bits(&leaf.sized.rule)), text),
        Some(end) => behind(behind(at, text), end_bits(end)),
    }
}

/// The place behind the code of a number.
pub fn number_end(leaf: &NumLeaf, at: u64, v: &Value) -> u64
    requires fine { IsTrue (num_fine leaf.now) }
    requires permitted { In leaf.now.set (number_of_data (data_of v.now)) }
    ensures value { result ≡ min (at + num_length leaf.now (number_of_data (data_of v.now))) (2 ^ 40) }
    ensures small { result ≤ 2 ^ 40 }
{
    behind(at, code_length(leaf, v.number()))
}

/// The place behind contents that end at another place of their own: whole octets.
pub fn octets_end(at: u64, inside: u64) -> u64
    requires { inside ≤ 2 ^ 40 }
    ensures value { result ≡ min (at + 8 * octets_for inside) (2 ^ 40) }
    ensures small { result ≤ 2 ^ 40 }
{
    behind(at, 8 * ((inside + 7) / 8))
}

fn least_number(set: &RangeSet) -> i128
    ensures { result ≡ least_number set.now }
{
    match set.least() {
        Some(x) => x,
        None => 0,
    }
}

/// The place behind an inserted field.
pub fn inserted_end(node: &Node, at: u64) -> u64
    requires can { CanMeasureField (grammar_of node.now) }
    requires near { at ≤ 2 ^ 40 }
    ensures value { result ≡ min (at + inserted_length (grammar_of node.now) at) (2 ^ 40) }
    ensures small { result ≤ 2 ^ 40 }
{
    match &node.body {
        Body::Num(leaf) => behind(
            padded(node.align, at),
            code_length(leaf, least_number(&leaf.set)),
        ),
        _ => at,
    }
}
