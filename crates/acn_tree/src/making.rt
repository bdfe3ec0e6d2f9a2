//! The values that are made from a number, so that a tree can be tried on many of them.

ghost use Rattle.std.specs.Prelude.{◌≡◌, ◌<◌, ◌^◌, IfOk, OnOk, OnErr, length, option_map};
ghost use Rattle.acn_tree.specs.CanDraw.{CanDraw, FormCanDraw, FieldsCanDraw, AlternativesCanDraw};
ghost use Rattle.acn_grammar.specs.ItemsNamed.{ItemsNamed, FormItemsNamed, FieldsItemsNamed, AlternativesItemsNamed};
ghost use Rattle.acn_tree.specs.Made as made;
ghost use Rattle.acn_tree.specs.MadeMeets.{MeetsButForEnds, EachMadeValueMeets};
ghost use Rattle.acn_tree.specs.MadeParts.{place_made, choice_made};
ghost use Rattle.acn_grammar.specs.View.{grammar_of, form_of, data_of, fields_view, places_view, elements_view, alternatives_view};

use crate::draw::Draw;
use crate::make_parts::{bits, number_value, octets, size, text};
use crate::tree::Tree;
use acn_grammar::{Alternative, Body, Field, Node, Presence, Value};
use acn_num::{Boxed, NoMemory, Row};
use std::alloc::Global;

// Whether a component is there.
fn is_there(presence: &Presence, draw: &mut Draw) -> bool
    ensures value { result ≡ (made.presence presence.now draw.old).value }
    ensures draw { draw.new ≡ (made.presence presence.now draw.old).state }
{
    match presence {
        Presence::Always => true,
        Presence::Bit | Presence::When(_) => draw.pick(2) == 1,
    }
}

#[cycle(make)]
fn make_node(alloc: Global, node: &Node, draw: &mut Draw) -> Result<Value, NoMemory>
    requires can { CanDraw (grammar_of node.now) }
    requires named { ItemsNamed (grammar_of node.now) }
    ensures value { IfOk result (λ v. data_of v ≡ (made.made (grammar_of node.now) draw.old).value) }
    ensures draw { OnOk result (draw.new ≡ (made.made (grammar_of node.now) draw.old).state) }
{
    make_body(alloc, &node.body, draw)
}

#[cycle(make)]
fn make_body(alloc: Global, body: &Body, draw: &mut Draw) -> Result<Value, NoMemory>
    requires can { FormCanDraw (form_of body.now) }
    requires named { FormItemsNamed (form_of body.now) }
    ensures value { IfOk result (λ v. data_of v ≡ (made.form_made (form_of body.now) draw.old).value) }
    ensures draw { OnOk result (draw.new ≡ (made.form_made (form_of body.now) draw.old).state) }
{
    match body {
        Body::Num(leaf) => Ok(number_value(leaf, draw)),
        Body::Octets(sizing) => Ok(Value::Octets(octets(alloc, &sizing.sizes, draw)?)),
        Body::Bits(sizing) => Ok(Value::Bits(bits(alloc, &sizing.sizes, draw)?)),
        Body::Text(leaf) => Ok(Value::Text(text(alloc, leaf, draw)?)),
        Body::Seq(seq) => Ok(Value::Seq(make_places(alloc, seq.fields.items(), draw)?)),
        Body::List(sizing, element) => {
            let n = size(&sizing.sizes, draw);
            Ok(Value::List(make_elements(alloc, element.get(), n, draw)?))
        }
        Body::Choice(choice) => make_alternative(alloc, choice.alternatives.items(), draw),
        Body::Contained(_, content) => make_node(alloc, content.get(), draw),
    }
}

// The place of a component.
#[cycle(make)]
fn make_place(
    alloc: Global,
    node: &Node,
    presence: &Presence,
    draw: &mut Draw,
) -> Result<Option<Value>, NoMemory>
    requires can { CanDraw (grammar_of node.now) }
    requires named { ItemsNamed (grammar_of node.now) }
    ensures value { IfOk result (λ place. option_map data_of place ≡ (place_made presence.now (grammar_of node.now) draw.old).value) }
    ensures draw { OnOk result (draw.new ≡ (place_made presence.now (grammar_of node.now) draw.old).state) }
{
    if is_there(presence, draw) {
        Ok(Some(make_node(alloc, node, draw)?))
    } else {
        Ok(None)
    }
}

#[cycle(make)]
fn make_places(
    alloc: Global,
    fields: &[Field],
    draw: &mut Draw,
) -> Result<Row<Option<Value>>, NoMemory>
    requires can { FieldsCanDraw (fields_view fields.now) }
    requires named { FieldsItemsNamed (fields_view fields.now) }
    ensures value { IfOk result (λ places. places_view places ≡ (made.fields_made (fields_view fields.now) draw.old).value) }
    ensures draw { OnOk result (draw.new ≡ (made.fields_made (fields_view fields.now) draw.old).state) }
{
    let mut places = Row::new(alloc);
    for field in fields {
        match field {
            Field::Component { node, presence, .. } => {
                places.push(make_place(alloc, node, presence, draw)?)?;
            }
            Field::Inserted { .. } => {}
        }
    }
    Ok(places)
}

#[cycle(make)]
fn make_elements(
    alloc: Global,
    element: &Node,
    n: usize,
    draw: &mut Draw,
) -> Result<Row<Value>, NoMemory>
    requires can { CanDraw (grammar_of element.now) }
    requires named { ItemsNamed (grammar_of element.now) }
    ensures value { IfOk result (λ vs. elements_view vs ≡ (made.elements (made.made (grammar_of element.now)) n draw.old).value) }
    ensures draw { OnOk result (draw.new ≡ (made.elements (made.made (grammar_of element.now)) n draw.old).state) }
{
    let mut elements = Row::new(alloc);
    for _ in 0..n {
        elements.push(make_node(alloc, element, draw)?)?;
    }
    Ok(elements)
}

#[cycle(make)]
fn make_alternative(
    alloc: Global,
    alternatives: &[Alternative],
    draw: &mut Draw,
) -> Result<Value, NoMemory>
    requires some { 0 < length alternatives.now }
    requires few { length alternatives.now < 2 ^ 32 }
    requires can { AlternativesCanDraw (alternatives_view alternatives.now) }
    requires named { AlternativesItemsNamed (alternatives_view alternatives.now) }
    ensures value { IfOk result (λ v. data_of v ≡ (choice_made (alternatives_view alternatives.now) draw.old).value) }
    ensures draw { OnOk result (draw.new ≡ (choice_made (alternatives_view alternatives.now) draw.old).state) }
{
    let at = draw.pick(alternatives.len() as u128) as usize;
    let inside = make_node(alloc, &alternatives[at].node, draw)?;
    Ok(Value::Alt(at as u32, Boxed::new(alloc, inside)?))
}

/// The value of the tree that is made from the draw's number (this profile's own generator, specs/Made): a number is a
/// permitted one, a size one of the first eight permitted ones, and an inserted field draws nothing. It has the shape of
/// the tree and meets its constraints, but that a terminator may stand inside a text. The draw goes on to where the
/// value ends; for want of memory, the only refusal, it stays where it was. The condition is that every enumeration has
/// fewer than 2^32 items.
pub fn make(alloc: Global, tree: &Tree, draw: &mut Draw) -> Result<Value, NoMemory>
    requires { ItemsNamed (grammar_of tree.now.root) }
    ensures value { IfOk result (λ v. data_of v ≡ (made.made (grammar_of tree.now.root) draw.old).value) }
    ensures draw { OnOk result (draw.new ≡ (made.made (grammar_of tree.now.root) draw.old).state) }
    ensures meets { IfOk result (λ v. MeetsButForEnds (grammar_of tree.now.root) (data_of v)) }
    ensures kept { OnErr result (draw.new ≡ draw.old) }
{
    let mut next = draw.copy();
    let value = make_node(alloc, tree.root(), &mut next)?;
    *draw = next;
    Ok(value)
}

/// The same on the definition: whatever number is begun with, the value that is made has the shape of the tree and meets
/// its constraints, but that terminators may stand inside its texts.
pub fn each_made_value_meets()
    ensures { EachMadeValueMeets }
{}
