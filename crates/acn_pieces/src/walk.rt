//! The walk over a node and its value, which finds the pieces.

ghost use Rattle.std.specs.Prelude.{◌≡◌, ◌+◌, ◌≤◌, ◌*◌, ◌^◌, suc, length, option_map, OnOk, IfOk};
ghost use Rattle.acn_num.specs.Bits.{octets as octets_for};
ghost use Rattle.acn_grammar.specs.Length.{alternative_length, bit_length, ending, fields_length, form_length, index_width, list_length, rule_width, run_length};
ghost use Rattle.acn_grammar.specs.View.{alternatives_view, data_of, elements_view, fields_view, form_of, grammar_of, places_view};
ghost use Rattle.acn_grammar.specs.declared.limits.TheConstants.{MOST_NODES};
ghost use Rattle.acn_num.specs.declared.limits.TheConstants.{MOST_SIZE};
ghost use Rattle.acn_pieces.specs.CanWalk.{CanWalk, CanWalkCase, CanWalkEach, CanWalkFields, CanWalkForm, CanWalkPlace};
ghost use Rattle.acn_pieces.specs.Pieces.{pieces_of};
ghost use Rattle.acn_pieces.specs.Walking.{Near, behind_case, behind_choice, behind_contents, behind_elements, behind_fields, behind_form, behind_inside, behind_list, behind_node, behind_place, behind_sequence, place_length, sequence_length};

use crate::parts::{
    fill_bits, index_bits, padding_at, presence_count, put_inserted, put_part, put_string,
    put_text, size_bits,
};
use crate::piece::{Piece, PieceKind};
use acn_grammar::{Alternative, Body, ChoiceRule, Field, Node, SizeRule, Sizing, Value};
use acn_ints::code_length;
use acn_num::{NoMemory, Path, Row};
use std::alloc::Global;

/// Where a walk is, and what it found.
#[derive(Drop)]
pub struct Walk {
    /// The pieces of what it has gone through.
    pub found: Row<Piece>,
    /// The node that it is at.
    pub path: Path,
    /// The bit of the packet from which it counts: that of the window round contents, else 0.
    pub origin: u64,
    /// Its place from there, in bits.
    pub at: u64,
}

// A value of the node at the path.
#[cycle(walk)]
fn walk_node(node: &Node, v: &Value, walk: &mut Walk) -> Result<(), NoMemory>
    requires can { CanWalk (length walk.old.path) (grammar_of node.now) (data_of v.now) }
    requires near { Near (bit_length (grammar_of node.now) walk.old.at (data_of v.now)) walk.old }
    ensures { OnOk result (walk.new ≡ behind_node (grammar_of node.now) (data_of v.now) walk.old) }
{
    let pad = padding_at(node.align, walk.at);
    put_part(walk, PieceKind::Pad, pad)?;
    walk_body(&node.body, v, walk)?;
    Ok(())
}

// A value of another form than the body's has no pieces.
#[cycle(walk)]
fn walk_body(body: &Body, v: &Value, walk: &mut Walk) -> Result<(), NoMemory>
    requires can { CanWalkForm (length walk.old.path) (form_of body.now) (data_of v.now) }
    requires near { Near (form_length (form_of body.now) walk.old.at (data_of v.now)) walk.old }
    ensures { OnOk result (walk.new ≡ behind_form (form_of body.now) (data_of v.now) walk.old) }
{
    match body {
        Body::Num(leaf) => put_part(walk, PieceKind::Leaf, code_length(leaf, v.number())),
        Body::Octets(sizing) => match v {
            Value::Octets(octets) => {
                put_string(walk, &sizing.rule, 8 * octets.items().len() as u64)
            }
            _ => Ok(()),
        },
        Body::Bits(sizing) => match v {
            Value::Bits(bits) => put_string(walk, &sizing.rule, bits.items().len() as u64),
            _ => Ok(()),
        },
        Body::Text(leaf) => match v {
            Value::Text(text) => put_text(walk, leaf, text.items().len() as u64),
            _ => Ok(()),
        },
        Body::Seq(seq) => match v {
            Value::Seq(places) => walk_sequence(seq.fields.items(), places.items(), walk),
            _ => Ok(()),
        },
        Body::List(sizing, element) => match v {
            Value::List(elements) => walk_list(sizing, element.get(), elements.items(), walk),
            _ => Ok(()),
        },
        Body::Choice(choice) => match v {
            Value::Alt(i, inside) => walk_choice(
                choice.alternatives.items(),
                &choice.rule,
                *i,
                inside.get(),
                walk,
            ),
            _ => Ok(()),
        },
        Body::Contained(sizing, content) => walk_contents(sizing, content.get(), v, walk),
    }
}

// A node at a step from the path.
#[cycle(walk)]
fn walk_inside(node: &Node, step: u32, v: &Value, walk: &mut Walk) -> Result<(), NoMemory>
    requires can { CanWalk (suc (length walk.old.path)) (grammar_of node.now) (data_of v.now) }
    requires near { Near (bit_length (grammar_of node.now) walk.old.at (data_of v.now)) walk.old }
    ensures { OnOk result (walk.new ≡ behind_inside (grammar_of node.now) step (data_of v.now) walk.old) }
{
    walk.path.push(step);
    walk_node(node, v, walk)?;
    walk.path.pop();
    Ok(())
}

#[cycle(walk)]
fn walk_sequence(
    fields: &[Field],
    places: &[Option<Value>],
    walk: &mut Walk,
) -> Result<(), NoMemory>
    requires few { length fields.now ≤ MOST_NODES }
    requires can { CanWalkFields (suc (length walk.old.path)) (fields_view fields.now) (places_view places.now) }
    requires near { Near (sequence_length (fields_view fields.now) walk.old.at (places_view places.now)) walk.old }
    ensures { OnOk result (walk.new ≡ behind_sequence (fields_view fields.now) (places_view places.now) walk.old) }
{
    let front = presence_count(fields, places);
    put_part(walk, PieceKind::Presence, front)?;
    walk_fields(fields, places, walk)?;
    Ok(())
}

#[cycle(walk)]
fn walk_fields(fields: &[Field], places: &[Option<Value>], walk: &mut Walk) -> Result<(), NoMemory>
    requires few { length fields.now ≤ MOST_NODES }
    requires can { CanWalkFields (suc (length walk.old.path)) (fields_view fields.now) (places_view places.now) }
    requires near { Near (fields_length (fields_view fields.now) walk.old.at (places_view places.now)) walk.old }
    ensures { OnOk result (walk.new ≡ behind_fields 0 (fields_view fields.now) (places_view places.now) walk.old) }
{
    let mut step = 0u32;
    let mut k = 0;
    for field in fields {
        match field {
            Field::Component { node, .. } => {
                if k == places.len() {
                    return Ok(());
                }
                walk_place(node, step, &places[k], walk)?;
                k += 1;
            }
            Field::Inserted { node, .. } => put_inserted(walk, node, step)?,
        }
        step += 1;
    }
    Ok(())
}

// A component, which may be absent.
#[cycle(walk)]
fn walk_place(
    node: &Node,
    step: u32,
    place: &Option<Value>,
    walk: &mut Walk,
) -> Result<(), NoMemory>
    requires can { CanWalkPlace (suc (length walk.old.path)) (grammar_of node.now) (option_map data_of place.now) }
    requires near { Near (place_length (grammar_of node.now) walk.old.at (option_map data_of place.now)) walk.old }
    ensures { OnOk result (walk.new ≡ behind_place (grammar_of node.now) step (option_map data_of place.now) walk.old) }
{
    match place {
        Some(v) => walk_inside(node, step, v, walk),
        None => Ok(()),
    }
}

#[cycle(walk)]
fn walk_list(
    sizing: &Sizing,
    element: &Node,
    elements: &[Value],
    walk: &mut Walk,
) -> Result<(), NoMemory>
    requires few { length elements.now ≤ MOST_SIZE }
    requires can { CanWalkEach (CanWalk (suc (length walk.old.path)) (grammar_of element.now)) (elements_view elements.now) }
    requires near { Near (list_length (ending sizing.now.rule) sizing.now.rule (bit_length (grammar_of element.now)) walk.old.at (elements_view elements.now)) walk.old }
    ensures { OnOk result (walk.new ≡ behind_list sizing.now (grammar_of element.now) (elements_view elements.now) walk.old) }
{
    match &sizing.rule {
        SizeRule::Prefix { width, .. } => {
            put_part(walk, PieceKind::Size, u64::from(*width))?;
            walk_elements(element, elements, walk)?;
            Ok(())
        }
        SizeRule::Slot(_) => {
            walk_elements(element, elements, walk)?;
            Ok(())
        }
        SizeRule::Ended(pattern) => {
            walk_elements(element, elements, walk)?;
            put_part(walk, PieceKind::Mark, pattern.bits().len() as u64)?;
            Ok(())
        }
    }
}

#[cycle(walk)]
fn walk_elements(element: &Node, elements: &[Value], walk: &mut Walk) -> Result<(), NoMemory>
    requires few { length elements.now ≤ MOST_SIZE }
    requires can { CanWalkEach (CanWalk (suc (length walk.old.path)) (grammar_of element.now)) (elements_view elements.now) }
    requires near { Near (run_length (bit_length (grammar_of element.now)) walk.old.at (elements_view elements.now)) walk.old }
    ensures { OnOk result (walk.new ≡ behind_elements (grammar_of element.now) 0 (elements_view elements.now) walk.old) }
{
    let mut step = 0u32;
    for v in elements {
        walk_inside(element, step, v, walk)?;
        step += 1;
    }
    Ok(())
}

#[cycle(walk)]
fn walk_choice(
    alternatives: &[Alternative],
    rule: &ChoiceRule,
    i: u32,
    v: &Value,
    walk: &mut Walk,
) -> Result<(), NoMemory>
    requires can { CanWalkCase (suc (length walk.old.path)) (alternatives_view alternatives.now) i (data_of v.now) }
    requires near { Near (index_width rule.now + alternative_length (alternatives_view alternatives.now) i (walk.old.at + index_width rule.now) (data_of v.now)) walk.old }
    ensures { OnOk result (walk.new ≡ behind_choice (alternatives_view alternatives.now) rule.now i (data_of v.now) walk.old) }
{
    let front = index_bits(rule);
    put_part(walk, PieceKind::Index, front)?;
    walk_case(alternatives, i, v, walk)?;
    Ok(())
}

// The alternative of a number. A number of none has no pieces.
#[cycle(walk)]
fn walk_case(
    alternatives: &[Alternative],
    i: u32,
    v: &Value,
    walk: &mut Walk,
) -> Result<(), NoMemory>
    requires can { CanWalkCase (suc (length walk.old.path)) (alternatives_view alternatives.now) i (data_of v.now) }
    requires near { Near (alternative_length (alternatives_view alternatives.now) i walk.old.at (data_of v.now)) walk.old }
    ensures { OnOk result (walk.new ≡ behind_case (alternatives_view alternatives.now) i (data_of v.now) walk.old) }
{
    match alternatives.get(i as usize) {
        Some(alternative) => walk_inside(&alternative.node, i, v, walk),
        None => Ok(()),
    }
}

// Contents: in their window the walk counts from the window's first bit.
#[cycle(walk)]
fn walk_contents(
    sizing: &Sizing,
    content: &Node,
    v: &Value,
    walk: &mut Walk,
) -> Result<(), NoMemory>
    requires can { CanWalk (suc (length walk.old.path)) (grammar_of content.now) (data_of v.now) }
    requires near { Near (rule_width sizing.now.rule + 8 * octets_for (bit_length (grammar_of content.now) 0 (data_of v.now))) walk.old }
    ensures { OnOk result (walk.new ≡ behind_contents sizing.now (grammar_of content.now) (data_of v.now) walk.old) }
{
    put_part(walk, PieceKind::Size, size_bits(&sizing.rule))?;
    let origin = walk.origin;
    let start = walk.at;
    walk.origin = origin + start;
    walk.at = 0;
    walk_inside(content, 0, v, walk)?;
    put_part(walk, PieceKind::Fill, fill_bits(walk.at))?;
    walk.origin = origin;
    walk.at = start + walk.at;
    Ok(())
}

/// The pieces of a value of the root, and how many bits it has.
pub fn list_pieces(alloc: Global, root: &Node, v: &Value) -> Result<(Row<Piece>, u64), NoMemory>
    requires can { CanWalk 0 (grammar_of root.now) (data_of v.now) }
    requires near { bit_length (grammar_of root.now) 0 (data_of v.now) ≤ 2 ^ 40 }
    ensures pieces { IfOk result (λ found. found.0 ≡ pieces_of (grammar_of root.now) (data_of v.now)) }
    ensures size { IfOk result (λ found. found.1 ≡ bit_length (grammar_of root.now) 0 (data_of v.now)) }
{
    let mut walk = Walk {
        found: Row::new(alloc),
        path: Path::new(),
        origin: 0,
        at: 0,
    };
    walk_node(root, v, &mut walk)?;
    let Walk { found, at, .. } = walk;
    Ok((found, at))
}
