ghost use Rattle.std.specs.Prelude.{◌≡◌, ◌^◌, ◌<◌, ◌≤◌, IsTrue};
ghost use Rattle.acn_grammar.specs.Interval.{span, form_span, num_span, text_span, component_span, field_span, fields_span, alternatives_span, end_width, list_around, exactly as just, plus as sum_of, times as product_of, hull as hull_of, hold as held, optional as perhaps, in_octets as whole_octets, size_of, sizes_of, from_one_octet as counted_from_one, code_lengths as lengths_of_codes};
ghost use Rattle.acn_tree.specs.KeptLeaves.{NumbersKept, FormKept, FieldKept, FieldsKept, AlternativesKept};
ghost use Rattle.acn_tree.specs.Room.{InTree};
ghost use Rattle.acn_grammar.specs.Leaves.{num_fine};
ghost use Rattle.acn_grammar.specs.Length.{rule_width, ending, index_width};
ghost use Rattle.acn_grammar.specs.View.{grammar_of, form_of, field_of, fields_view, alternatives_view};
ghost use Rattle.acn_grammar.specs.declared.limits.TheConstants.{MOST_PATTERN_BITS};

use crate::tree::Tree;
use acn_grammar::{
    Alternative, Body, Bounds, ChoiceRule, Field, Node, NumCoding, NumLeaf, Pattern, Presence,
    SizeRule, Sizing, TextLeaf,
};
use acn_leaf::{code_lengths, fixed_width};
use acn_num::{MOST_SIZE, RangeSet};

/// The greatest size, as a number of a set.
const GREATEST_SIZE: i128 = MOST_SIZE as i128;

/// Sums and products are held down to this.
const MOST: u64 = 1 << 40;

fn exactly(n: u64) -> Bounds
    ensures { result ≡ just n }
{
    let n = n.min(MOST);
    Bounds {
        least: n,
        greatest: n,
    }
}

fn plus(a: Bounds, b: Bounds) -> Bounds
    ensures { result ≡ sum_of a b }
{
    Bounds {
        least: a.least.saturating_add(b.least).min(MOST),
        greatest: a.greatest.saturating_add(b.greatest).min(MOST),
    }
}

fn times(a: Bounds, b: Bounds) -> Bounds
    ensures { result ≡ product_of a b }
{
    Bounds {
        least: a.least.saturating_mul(b.least).min(MOST),
        greatest: a.greatest.saturating_mul(b.greatest).min(MOST),
    }
}

fn hull(a: Bounds, b: Bounds) -> Bounds
    ensures { result ≡ hull_of a b }
{
    Bounds {
        least: a.least.min(b.least),
        greatest: a.greatest.max(b.greatest),
    }
}

fn optional(b: Bounds) -> Bounds
    ensures { result ≡ perhaps b }
{
    Bounds {
        least: 0,
        greatest: b.greatest,
    }
}

fn in_octets(b: Bounds) -> Bounds
    requires small { b.least ≤ 2 ^ 40 }
    requires less { b.greatest ≤ 2 ^ 40 }
    ensures { result ≡ whole_octets b }
{
    Bounds {
        least: (8 * ((b.least + 7) / 8)).min(MOST),
        greatest: (8 * ((b.greatest + 7) / 8)).min(MOST),
    }
}

/// A size, held down to `MOST_SIZE`.
pub fn size(x: Option<i128>) -> u64
    ensures { result ≡ size_of x }
{
    match x {
        None => 0,
        Some(n) => {
            if n < 0 {
                0
            } else if n > GREATEST_SIZE {
                u64::from(MOST_SIZE)
            } else {
                n as u64
            }
        }
    }
}

fn sizes(set: &RangeSet) -> Bounds
    ensures { result ≡ sizes_of set.now }
{
    Bounds {
        least: size(set.least()),
        greatest: size(set.greatest()),
    }
}

fn size_width(sizing: &Sizing) -> u64
    ensures value { result ≡ rule_width sizing.now.rule }
    ensures small { result < 2 ^ 32 }
{
    match &sizing.rule {
        SizeRule::Prefix { width, .. } => u64::from(*width),
        SizeRule::Slot(_) => 0,
        SizeRule::Ended(_) => 0,
    }
}

// A list has a size in front or a pattern behind.
fn list_width(sizing: &Sizing) -> u64
    ensures { result ≡ list_around (ending sizing.now.rule) sizing.now }
{
    match &sizing.rule {
        SizeRule::Prefix { width, .. } => u64::from(*width),
        SizeRule::Slot(_) => 0,
        SizeRule::Ended(pattern) => pattern.bits().len() as u64,
    }
}

fn choice_width(rule: &ChoiceRule) -> u64
    ensures { result ≡ index_width rule.now }
{
    match rule {
        ChoiceRule::Index(width) => u64::from(*width),
        _ => 0,
    }
}

fn component(presence: &Presence, b: Bounds) -> Bounds
    ensures { result ≡ component_span presence.now b }
{
    match presence {
        Presence::Always => b,
        Presence::Bit => plus(exactly(1), optional(b)),
        Presence::When(_) => optional(b),
    }
}

fn hold(b: Bounds) -> Bounds
    ensures { result ≡ held b }
{
    Bounds {
        least: b.least.min(MOST),
        greatest: b.greatest.min(MOST),
    }
}

// Counted numbers count from one octet.
fn from_one_octet(coding: &NumCoding, b: Bounds) -> Bounds
    ensures { result ≡ counted_from_one coding.now b }
{
    match coding {
        NumCoding::CountedFrom { .. } | NumCoding::CountedSigned => Bounds {
            least: 16,
            greatest: b.greatest,
        },
        _ => b,
    }
}

fn number(leaf: &NumLeaf) -> Bounds
    requires { IsTrue (num_fine leaf.now) }
    ensures { result ≡ num_span leaf.now }
{
    match fixed_width(&leaf.coding) {
        Some(width) => exactly(u64::from(width)),
        None => hold(from_one_octet(&leaf.coding, code_lengths(leaf))),
    }
}

fn terminator_width(end: &Option<Pattern>) -> u64
    ensures value { result ≡ end_width end.now }
    ensures small { result ≤ MOST_PATTERN_BITS }
{
    match end {
        Some(end) => end.bits().len() as u64,
        None => 0,
    }
}

fn text(leaf: &TextLeaf) -> Bounds
    ensures { result ≡ text_span leaf.now }
{
    let around = size_width(&leaf.sized) + terminator_width(&leaf.ended);
    let each = exactly(u64::from(leaf.width));
    plus(exactly(around), times(sizes(&leaf.sized.sizes), each))
}

#[cycle(interval)]
fn node_bounds(node: &Node) -> Bounds
    requires { NumbersKept (grammar_of node.now) }
    ensures exact { result ≡ span (grammar_of node.now) }
    ensures least { result.least ≤ 2 ^ 40 }
    ensures greatest { result.greatest ≤ 2 ^ 40 }
{
    let padding = Bounds {
        least: 0,
        greatest: u64::from(node.align).saturating_sub(1),
    };
    plus(padding, body(&node.body))
}

#[cycle(interval)]
fn body(body: &Body) -> Bounds
    requires { FormKept (form_of body.now) }
    ensures exact { result ≡ form_span (form_of body.now) }
    ensures least { result.least ≤ 2 ^ 40 }
    ensures greatest { result.greatest ≤ 2 ^ 40 }
{
    match body {
        Body::Num(leaf) => number(leaf),
        Body::Octets(sizing) => plus(
            exactly(size_width(sizing)),
            times(sizes(&sizing.sizes), exactly(8)),
        ),
        Body::Bits(sizing) => plus(
            exactly(size_width(sizing)),
            times(sizes(&sizing.sizes), exactly(1)),
        ),
        Body::Text(leaf) => text(leaf),
        Body::Seq(seq) => fields(seq.fields.items()),
        Body::List(sizing, element) => {
            let each = node_bounds(element.get());
            plus(
                exactly(list_width(sizing)),
                times(sizes(&sizing.sizes), each),
            )
        }
        Body::Choice(choice) => {
            let widest = alternatives(choice.alternatives.items());
            plus(exactly(choice_width(&choice.rule)), widest)
        }
        Body::Contained(sizing, content) => {
            let inside = node_bounds(content.get());
            plus(exactly(size_width(sizing)), in_octets(inside))
        }
    }
}

#[cycle(interval)]
fn field(field: &Field) -> Bounds
    requires { FieldKept (field_of field.now) }
    ensures exact { result ≡ field_span (field_of field.now) }
    ensures least { result.least ≤ 2 ^ 40 }
    ensures greatest { result.greatest ≤ 2 ^ 40 }
{
    match field {
        Field::Component { node, presence, .. } => component(presence, node_bounds(node)),
        Field::Inserted { node, .. } => node_bounds(node),
    }
}

#[cycle(interval)]
fn fields(fields: &[Field]) -> Bounds
    requires { FieldsKept (fields_view fields.now) }
    ensures exact { result ≡ fields_span (fields_view fields.now) }
    ensures least { result.least ≤ 2 ^ 40 }
    ensures greatest { result.greatest ≤ 2 ^ 40 }
{
    let mut all = exactly(0);
    for one in fields {
        all = plus(all, field(one));
    }
    all
}

#[cycle(interval)]
fn alternatives(alternatives: &[Alternative]) -> Bounds
    requires { AlternativesKept (alternatives_view alternatives.now) }
    ensures exact { result ≡ alternatives_span (alternatives_view alternatives.now) }
    ensures least { result.least ≤ 2 ^ 40 }
    ensures greatest { result.greatest ≤ 2 ^ 40 }
{
    let mut all = Bounds {
        least: MOST,
        greatest: 0,
    };
    for alternative in alternatives {
        all = hull(all, node_bounds(&alternative.node));
    }
    all
}

/// The least and the greatest number of bits that the values of a node have, the padding before it included. The node is
/// one of a tree. Every sum and product is held down to 2^40. It takes no memory. That a value of the node of an accepted
/// tree has no fewer and no more bits is `values_lie_within_bounds` of `acn_packet_laws`. (This profile's own.)
pub fn node_interval(node: &Node) -> Bounds
    requires { InTree (grammar_of node.now) }
    ensures { result ≡ span (grammar_of node.now) }
{
    node_bounds(node)
}

/// The least and the greatest number of bits of a tree's values. Every sum and product is held down to 2^40. It takes no memory.
pub fn interval(tree: &Tree) -> Bounds
    ensures { result ≡ span (grammar_of tree.now.root) }
{
    node_interval(tree.root())
}
