//! Parts that are no nodes, each put behind what a walk found.

ghost use Rattle.std.specs.Prelude.{◌≡◌, ◌+◌, ◌-◌, ◌*◌, ◌<◌, ◌≤◌, ◌^◌, suc, length, OnOk, IsTrue};
ghost use Rattle.acn_num.specs.Ranges.{In};
ghost use Rattle.acn_grammar.specs.Leaves.{num_fine};
ghost use Rattle.acn_num.specs.Bits.{octets as octets_for};
ghost use Rattle.acn_grammar.specs.Length.{padding, rule_width, index_width, inserted_length, least as least_number, num_length, text_length, presence_bits};
ghost use Rattle.acn_grammar.specs.View.{fields_view, grammar_of, places_view};
ghost use Rattle.acn_pieces.specs.CanWalk.{CanWalkField, HasCode};
ghost use Rattle.acn_pieces.specs.Walking.{Near, behind_code, behind_field, behind_inserted, behind_part, behind_string, behind_text, presence_width};

use crate::piece::{Piece, PieceKind};
use crate::walk::Walk;
use acn_grammar::{Body, ChoiceRule, Field, Node, NumLeaf, Presence, SizeRule, TextLeaf, Value};
use acn_ints::code_length;
use acn_num::{NoMemory, RangeSet};

/// Adds a part of so many bits, or nothing where it has none.
pub fn put_part(walk: &mut Walk, kind: PieceKind, count: u64) -> Result<(), NoMemory>
    requires near { Near count walk.old }
    ensures { OnOk result (walk.new ≡ behind_part kind count walk.old) }
{
    if count == 0 {
        return Ok(());
    }
    let piece = Piece {
        path: walk.path.copy(),
        at: walk.origin + walk.at,
        count,
        kind,
    };
    walk.found.push(piece)?;
    walk.at += count;
    Ok(())
}

/// The padding before a node that is aligned so.
pub fn padding_at(align: u32, at: u64) -> u64
    requires { 0 < align }
    ensures { result ≡ padding align at }
{
    let align = u64::from(align);
    (align - at % align) % align
}

/// The bits of a size in front.
pub fn size_bits(rule: &SizeRule) -> u64
    ensures value { result ≡ rule_width rule.now }
    ensures small { result < 2 ^ 32 }
{
    match rule {
        SizeRule::Prefix { width, .. } => u64::from(*width),
        SizeRule::Slot(_) => 0,
        SizeRule::Ended(_) => 0,
    }
}

/// The bits of an index in front.
pub fn index_bits(rule: &ChoiceRule) -> u64
    ensures { result ≡ index_width rule.now }
{
    match rule {
        ChoiceRule::Index(width) => u64::from(*width),
        ChoiceRule::Tests => 0,
        ChoiceRule::Item(_) => 0,
    }
}

/// The bits that fill up so many to whole octets.
pub fn fill_bits(inside: u64) -> u64
    requires { inside ≤ 2 ^ 40 }
    ensures { result ≡ 8 * octets_for inside - inside }
{
    8 * ((inside + 7) / 8) - inside
}

/// Adds a string of so many bits, behind its size where that stands in front.
pub fn put_string(walk: &mut Walk, rule: &SizeRule, count: u64) -> Result<(), NoMemory>
    requires near { Near (rule_width rule.now + count) walk.old }
    ensures { OnOk result (walk.new ≡ behind_string rule.now count walk.old) }
{
    put_part(walk, PieceKind::Size, size_bits(rule))?;
    put_part(walk, PieceKind::Leaf, count)
}

/// Adds a text of so many characters, with its terminator where it has one.
pub fn put_text(walk: &mut Walk, leaf: &TextLeaf, n: u64) -> Result<(), NoMemory>
    requires near { Near (text_length leaf.now.ended leaf.now n) walk.old }
    ensures { OnOk result (walk.new ≡ behind_text leaf.now n walk.old) }
{
    let text = u64::from(leaf.width) * n;
    match &leaf.ended {
        None => put_string(walk, &leaf.sized.rule, text),
        Some(end) => put_part(walk, PieceKind::Leaf, text + end.bits().len() as u64),
    }
}

fn least_number(set: &RangeSet) -> i128
    ensures { result ≡ least_number set.now }
{
    match set.least() {
        Some(x) => x,
        None => 0,
    }
}

// The bits of the code of a number that isn't in the value: all its codes have as many.
fn code_bits(leaf: &NumLeaf) -> u64
    requires fine { IsTrue (num_fine leaf.now) }
    requires permitted { In leaf.now.set (least_number leaf.now.set) }
    ensures value { result ≡ num_length leaf.now (least_number leaf.now.set) }
    ensures small { result ≤ 256 }
{
    code_length(leaf, least_number(&leaf.set))
}

// The padding and the code of a field that isn't in the value.
fn put_code(walk: &mut Walk, align: u32, leaf: &NumLeaf) -> Result<(), NoMemory>
    requires positive { 0 < align }
    requires fine { IsTrue (num_fine leaf.now) }
    requires permitted { In leaf.now.set (least_number leaf.now.set) }
    requires near { Near (padding align walk.old.at + num_length leaf.now (least_number leaf.now.set)) walk.old }
    ensures { OnOk result (walk.new ≡ behind_code align leaf.now walk.old) }
{
    let pad = padding_at(align, walk.at);
    put_part(walk, PieceKind::Pad, pad)?;
    let code = code_bits(leaf);
    put_part(walk, PieceKind::Leaf, code)?;
    Ok(())
}

// The inserted field at the path. One that is no number has no part.
fn put_field(walk: &mut Walk, node: &Node) -> Result<(), NoMemory>
    requires code { HasCode (grammar_of node.now) }
    requires near { Near (inserted_length (grammar_of node.now) walk.old.at) walk.old }
    ensures { OnOk result (walk.new ≡ behind_field (grammar_of node.now) walk.old) }
{
    match &node.body {
        Body::Num(leaf) => put_code(walk, node.align, leaf),
        _ => Ok(()),
    }
}

/// Adds an inserted field, at a step from the path.
pub fn put_inserted(walk: &mut Walk, node: &Node, step: u32) -> Result<(), NoMemory>
    requires can { CanWalkField (suc (length walk.old.path)) (grammar_of node.now) }
    requires near { Near (inserted_length (grammar_of node.now) walk.old.at) walk.old }
    ensures { OnOk result (walk.new ≡ behind_inserted (grammar_of node.now) step walk.old) }
{
    walk.path.push(step);
    put_field(walk, node)?;
    walk.path.pop();
    Ok(())
}

// The bits of a component's presence.
fn presence_bit(presence: &Presence) -> u64
    ensures value { result ≡ presence_width presence.now }
    ensures small { result ≤ 1 }
{
    match presence {
        Presence::Always => 0,
        Presence::Bit => 1,
        Presence::When(_) => 0,
    }
}

/// How many presence bits stand in front of the fields.
pub fn presence_count(fields: &[Field], places: &[Option<Value>]) -> u64
    ensures { result ≡ length (presence_bits (fields_view fields.now) (places_view places.now)) }
{
    let mut count = 0u64;
    let mut at = 0;
    for field in fields {
        match field {
            Field::Component { presence, .. } => {
                if at == places.len() {
                    return count;
                }
                count += presence_bit(presence);
                at += 1;
            }
            Field::Inserted { .. } => {}
        }
    }
    count
}
