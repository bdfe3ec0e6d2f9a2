//! The text of a value, put at the end of a buffer.

ghost use Rattle.std.specs.Prelude.{◌≡◌, ◌++◌, ◌∷◌, [], OnOk, OnErr, IfOk, option_map, Some, false, ◌<◌};
ghost use Rattle.json.specs.Print.{quoted, escape};
ghost use Rattle.hex.specs.Hex.{encode_lower};
ghost use Rattle.serde_json.specs.Data.{Members, no_members};
ghost use Rattle.serde_json.specs.Written.{compact_text, items_text, members_text};
ghost use Rattle.acn_grammar.specs.View.{grammar_of, data_of, field_of, fields_view, places_view, elements_view, alternatives_view};
ghost use Rattle.acn_json.specs.Kept.{Kept};
ghost use Rattle.acn_json.specs.Lines as lines;
ghost use Rattle.acn_lines.specs.Order as spec;
ghost use Rattle.acn_lines.specs.declared.order.Order.{out-Order};

use crate::order::Order;
use crate::turns::Turn;
use acn_grammar::{Alternative, Body, Field, Node, Value};
use acn_json::{
    digit, put, put_bits, put_comma, put_key, put_null, put_octet, put_quoted, write_number,
};
use acn_num::NoMemory;

// Puts the two hexadecimal digits of an octet, which stand for themselves in a string.
fn put_pair(octet: u8, line: &mut Vec<u8>) -> Result<(), NoMemory>
    ensures added { OnOk result (line.new.items ≡ line.old.items ++ escape (encode_lower (octet ∷ []))) }
    ensures kept { OnErr result (Kept line.old.items line.new.items) }
{
    put(&[digit(octet / 16), digit(octet % 16)], line)
}

#[tactic(auto, unfolding(hex::specs::Hex::encode_with))]
fn put_pairs(octets: &[u8], line: &mut Vec<u8>) -> Result<(), NoMemory>
    ensures added { OnOk result (line.new.items ≡ line.old.items ++ escape (encode_lower octets.now)) }
    ensures kept { OnErr result (Kept line.old.items line.new.items) }
{
    for octet in octets {
        put_pair(*octet, line)?;
    }
    Ok(())
}

// Puts a string of hexadecimal digits.
fn put_octets(octets: &[u8], line: &mut Vec<u8>) -> Result<(), NoMemory>
    ensures added { OnOk result (line.new.items ≡ line.old.items ++ quoted (encode_lower octets.now)) }
    ensures kept { OnErr result (Kept line.old.items line.new.items) }
{
    put_octet(b'"', line)?;
    put_pairs(octets, line)?;
    put_octet(b'"', line)
}

// The value in a place.
fn value_in(place: &Option<Value>) -> Option<&Value>
    ensures { option_map (λ v. data_of v.now) result ≡ option_map data_of place.now }
{
    match place {
        Some(value) => Some(value),
        None => None,
    }
}

/// The value in the place of a number, if one is there.
pub fn value_at(places: &[Option<Value>], at: usize) -> Option<&Value>
    ensures { option_map (λ v. data_of v.now) result ≡ spec.place_at (places_view places.now) at }
{
    match places.get(at) {
        Some(place) => value_in(place),
        None => None,
    }
}

/// Puts the text of a value. It fails only where memory runs out; what stood in the buffer then still stands in front.
#[cycle(put)]
pub fn put_node(
    node: &Node,
    order: &Order,
    value: &Value,
    line: &mut Vec<u8>,
) -> Result<(), NoMemory>
    requires { spec.IsNodeOrder (grammar_of node.now) order.now }
    ensures added { OnOk result (line.new.items ≡ line.old.items ++ compact_text (lines.json_of (grammar_of node.now) (data_of value.now))) }
    ensures kept { OnErr result (Kept line.old.items line.new.items) }
{
    match &node.body {
        Body::Num(leaf) => write_number(leaf, value, line),
        Body::Octets(_) => match value {
            Value::Octets(octets) => put_octets(octets.items(), line),
            _ => put_null(line),
        },
        Body::Bits(_) => match value {
            Value::Bits(bits) => put_bits(bits.items(), line),
            _ => put_null(line),
        },
        Body::Text(_) => match value {
            Value::Text(text) => put_quoted(text.items(), line),
            _ => put_null(line),
        },
        Body::Seq(seq) => match value {
            Value::Seq(places) => put_object(seq.fields.items(), order, places.items(), line),
            _ => put_null(line),
        },
        Body::List(_, element) => match value {
            Value::List(elements) => put_array(element.get(), order, elements.items(), line),
            _ => put_null(line),
        },
        Body::Choice(choice) => match value {
            Value::Alt(at, inside) => put_alternative(
                choice.alternatives.items(),
                order.inside.items(),
                *at,
                inside.get(),
                line,
            ),
            _ => put_null(line),
        },
        Body::Contained(_, content) => put_node(content.get(), order, value, line),
    }
}

#[cycle(put)]
fn put_object(
    fields: &[Field],
    order: &Order,
    places: &[Option<Value>],
    line: &mut Vec<u8>,
) -> Result<(), NoMemory>
    requires turns { spec.AreTurns (fields_view fields.now) (out-Order order.now).turns }
    requires inside { spec.AreFieldOrders (fields_view fields.now) (out-Order order.now).inside }
    ensures added { OnOk result (line.new.items ≡ line.old.items ++ 123 ∷ members_text false (lines.fields_json no_members (fields_view fields.now) (places_view places.now))) }
    ensures kept { OnErr result (Kept line.old.items line.new.items) }
{
    put_octet(b'{', line)?;
    put_turns(
        fields,
        order.inside.items(),
        order.turns.items(),
        places,
        line,
    )?;
    put_octet(b'}', line)
}

// The members of these turns.
#[cycle(put)]
fn put_turns(
    fields: &[Field],
    inside: &[Order],
    turns: &[Turn],
    places: &[Option<Value>],
    line: &mut Vec<u8>,
) -> Result<(), NoMemory>
    requires keyed { spec.AreKeyed (fields_view fields.now) turns.now }
    requires inside { spec.AreFieldOrders (fields_view fields.now) inside.now }
    ensures added { OnOk result (line.new.items ++ 125 ∷ [] ≡ line.old.items ++ members_text false (spec.in_order (fields_view fields.now) turns.now (places_view places.now))) }
    ensures kept { Kept line.old.items line.new.items }
{
    let mut later = false;
    for turn in turns {
        later = put_turn(fields, inside, turn, places, later, line)?;
    }
    Ok(())
}

// The member of a turn, if it is there, and whether a comma is wanted behind it.
#[cycle(put)]
fn put_turn(
    fields: &[Field],
    inside: &[Order],
    turn: &Turn,
    places: &[Option<Value>],
    later: bool,
    line: &mut Vec<u8>,
) -> Result<bool, NoMemory>
    requires keyed { spec.HasKey (spec.field_at (fields_view fields.now) turn.now.field) turn.now.key }
    requires inside { spec.AreFieldOrders (fields_view fields.now) inside.now }
    ensures added { IfOk result (λ more. (ms : Members) → line.new.items ++ members_text more ms ≡ line.old.items ++ members_text later (spec.member_at (spec.field_at (fields_view fields.now) turn.now.field) (spec.place_at (places_view places.now) turn.now.place) ms)) }
    ensures kept { Kept line.old.items line.new.items }
{
    match value_at(places, turn.place) {
        Some(value) => {
            put_comma(later, line)?;
            put(turn.key.items(), line)?;
            put_field(&fields[turn.field], &inside[turn.field], value, line)?;
            Ok(true)
        }
        None => Ok(later),
    }
}

// The value of a component.
#[cycle(put)]
fn put_field(
    field: &Field,
    order: &Order,
    value: &Value,
    line: &mut Vec<u8>,
) -> Result<(), NoMemory>
    requires { spec.IsFieldOrder (field_of field.now) order.now }
    ensures added { OnOk result (line.new.items ≡ line.old.items ++ compact_text (spec.field_json (field_of field.now) (data_of value.now))) }
    ensures kept { OnErr result (Kept line.old.items line.new.items) }
{
    match field {
        Field::Component { node, .. } => put_node(node, order, value, line),
        Field::Inserted { .. } => put_null(line),
    }
}

#[cycle(put)]
fn put_array(
    element: &Node,
    order: &Order,
    elements: &[Value],
    line: &mut Vec<u8>,
) -> Result<(), NoMemory>
    requires { spec.IsNodeOrder (grammar_of element.now) order.now }
    ensures added { OnOk result (line.new.items ≡ line.old.items ++ 91 ∷ items_text false (lines.each_json (lines.json_of (grammar_of element.now)) (elements_view elements.now))) }
    ensures kept { OnErr result (Kept line.old.items line.new.items) }
{
    put_octet(b'[', line)?;
    let mut later = false;
    for value in elements {
        put_comma(later, line)?;
        put_node(element, order, value, line)?;
        later = true;
    }
    put_octet(b']', line)
}

#[cycle(put)]
fn put_alternative(
    alternatives: &[Alternative],
    inside: &[Order],
    at: u32,
    value: &Value,
    line: &mut Vec<u8>,
) -> Result<(), NoMemory>
    requires { spec.AreAlternativeOrders (alternatives_view alternatives.now) inside.now }
    ensures added { OnOk result (line.new.items ≡ line.old.items ++ 123 ∷ members_text false (lines.alternative_json (alternatives_view alternatives.now) at (data_of value.now))) }
    ensures kept { OnErr result (Kept line.old.items line.new.items) }
{
    match alternatives.get(at as usize) {
        Some(alternative) => {
            put_octet(b'{', line)?;
            put_key(alternative.name.bytes(), line)?;
            put_node(&alternative.node, &inside[at as usize], value, line)?;
            put_octet(b'}', line)
        }
        None => put(b"{}", line),
    }
}
