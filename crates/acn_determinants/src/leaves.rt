//! The leaf of a slot.

ghost use Rattle.std.specs.Prelude.{◌≡◌, Option, option_map, unwrap_or};
ghost use Rattle.acn_grammar.specs.Grammar.{Fields};
ghost use Rattle.acn_grammar.specs.Slots as spec;
ghost use Rattle.acn_grammar.specs.declared.node.NumLeaf.{NumLeaf as NumLeafData};
ghost use Rattle.acn_grammar.specs.View.{grammar_of, form_of, field_of, fields_view, with_field, alternatives_view};

use acn_grammar::{Alternative, Body, Field, Node, NumLeaf};

/// The leaf that a node is, None where it is no number.
pub fn number_leaf(node: &Node) -> Option<&NumLeaf>
    ensures { option_map (λ leaf. leaf.now) result ≡ spec.number_leaf (grammar_of node.now) }
{
    match &node.body {
        Body::Num(leaf) => Some(leaf),
        Body::Octets(_) => None,
        Body::Bits(_) => None,
        Body::Text(_) => None,
        Body::Seq(_) => None,
        Body::List(_, _) => None,
        Body::Choice(_) => None,
        Body::Contained(_, _) => None,
    }
}

// What a field with this slot answers for the wanted one, where its node answers so.
fn said<'t>(
    node: &'t Node,
    own: Option<u32>,
    inner: Option<&'t NumLeaf>,
    wanted: u32,
) -> Option<Option<&'t NumLeaf>>
    ensures { (behind : Option NumLeafData) → spec.is_slot own wanted (spec.number_leaf (grammar_of node.now)) (spec.first_of_two (option_map (λ leaf. leaf.now) inner.entry) behind) ≡ unwrap_or (option_map (option_map (λ leaf. leaf.now)) result) behind }
{
    if own == Some(wanted) {
        return Some(number_leaf(node));
    }
    match inner {
        Some(leaf) => Some(Some(leaf)),
        None => None,
    }
}

/// The leaf of a slot, None where no field says it.
#[cycle(slot)]
pub fn slot_leaf(node: &Node, slot: u32) -> Option<&NumLeaf>
    ensures { option_map (λ leaf. leaf.now) result ≡ spec.slot_leaf (grammar_of node.now) slot }
{
    body_leaf(&node.body, slot)
}

#[cycle(slot)]
fn body_leaf(body: &Body, slot: u32) -> Option<&NumLeaf>
    ensures { option_map (λ leaf. leaf.now) result ≡ spec.form_leaf (form_of body.now) slot }
{
    match body {
        Body::Seq(seq) => fields_leaf(seq.fields.items(), slot),
        Body::List(_, element) => slot_leaf(element.get(), slot),
        Body::Choice(choice) => alternatives_leaf(choice.alternatives.items(), slot),
        Body::Contained(_, content) => slot_leaf(content.get(), slot),
        Body::Num(_) => None,
        Body::Octets(_) => None,
        Body::Bits(_) => None,
        Body::Text(_) => None,
    }
}

// What one field answers, None where the fields behind it do.
#[cycle(slot)]
fn field_leaf(field: &Field, slot: u32) -> Option<Option<&NumLeaf>>
    ensures { (fs : Fields) → spec.fields_leaf (with_field (field_of field.now) fs) slot ≡ unwrap_or (option_map (option_map (λ leaf. leaf.now)) result) (spec.fields_leaf fs slot) }
{
    match field {
        Field::Component {
            node,
            slot: own,
            ..
        } => said(node, *own, slot_leaf(node, slot), slot),
        Field::Inserted {
            node,
            slot: own,
            ..
        } => said(node, *own, slot_leaf(node, slot), slot),
    }
}

#[cycle(slot)]
fn fields_leaf(fields: &[Field], slot: u32) -> Option<&NumLeaf>
    ensures { option_map (λ leaf. leaf.now) result ≡ spec.fields_leaf (fields_view fields.now) slot }
{
    for field in fields {
        if let Some(leaf) = field_leaf(field, slot) {
            return leaf;
        }
    }
    None
}

#[cycle(slot)]
fn alternatives_leaf(alternatives: &[Alternative], slot: u32) -> Option<&NumLeaf>
    ensures { option_map (λ leaf. leaf.now) result ≡ spec.alternatives_leaf (alternatives_view alternatives.now) slot }
{
    for alternative in alternatives {
        if let Some(leaf) = slot_leaf(&alternative.node, slot) {
            return Some(leaf);
        }
    }
    None
}
