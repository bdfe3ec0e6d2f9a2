//! The text of a value.

ghost use Rattle.std.specs.Prelude.{◌≡◌, ◌++◌, ◌∷◌, [], OnOk, OnErr, IfOk, option_map, false, length};
ghost use Rattle.json.specs.Token as token;
ghost use Rattle.json.specs.Print.{quoted, token_text};
ghost use Rattle.serde_json.specs.Data.{no_members};
ghost use Rattle.serde_json.specs.Written.{compact_text, comma_if, items_text, members_text};
ghost use Rattle.acn_grammar.specs.View.{grammar_of, data_of, field_of, fields_view, places_view, elements_view, alternatives_view};
ghost use Rattle.acn_json.specs.Kept.{Kept};
ghost use Rattle.acn_json.specs.Lines as lines;
ghost use Rattle.acn_json.specs.Spots.{place_json, json_at, members_at, AreWithin};

use crate::spots::{Spot, spots_of};
use crate::text::{put, put_bits, put_number, put_octet, put_octets, put_quoted};
use acn_grammar::{Alternative, Body, Field, Node, NumKind, NumLeaf, Value};
use acn_num::{Name, NoMemory};
use acn_tree::Tree;
use std::alloc::Global;
use std::collections::BTreeMap;

/// The room that a line begins with.
const USUAL_BYTES: usize = 128;

/// Puts `null`. It fails only where memory runs out; what stood in the buffer then still stands in front.
pub fn put_null(out: &mut Vec<u8>) -> Result<(), NoMemory>
    ensures added { OnOk result (out.new.items ≡ out.old.items ++ token_text token.null) }
    ensures kept { OnErr result (Kept out.old.items out.new.items) }
{
    put(b"null", out)
}

fn put_truth(truth: bool, out: &mut Vec<u8>) -> Result<(), NoMemory>
    ensures added { OnOk result (out.new.items ≡ out.old.items ++ token_text (token.boolean truth)) }
    ensures kept { OnErr result (Kept out.old.items out.new.items) }
{
    if truth {
        put(b"true", out)
    } else {
        put(b"false", out)
    }
}

/// Puts a comma, where something stands before.
/// It fails only where memory runs out; what stood in the buffer then still stands in front.
pub fn put_comma(later: bool, out: &mut Vec<u8>) -> Result<(), NoMemory>
    ensures added { OnOk result (out.new.items ≡ out.old.items ++ comma_if later) }
    ensures kept { OnErr result (Kept out.old.items out.new.items) }
{
    if later { put_octet(b',', out) } else { Ok(()) }
}

/// Puts a name and a colon. It fails only where memory runs out; what stood in the buffer then still stands in front.
pub fn put_key(name: &[u8], out: &mut Vec<u8>) -> Result<(), NoMemory>
    ensures added { OnOk result (out.new.items ≡ out.old.items ++ (quoted name.now ++ 58 ∷ [])) }
    ensures kept { OnErr result (Kept out.old.items out.new.items) }
{
    put_quoted(name, out)?;
    put_octet(b':', out)
}

/// The name of the item of a number.
pub fn item_name(items: &[(Name, i128)], at: u32) -> &[u8]
    ensures { result.now ≡ lines.item_name items.now at }
{
    match items.get(at as usize) {
        Some(item) => item.0.bytes(),
        None => b"",
    }
}

/// Puts the value of a leaf whose value is a number.
/// It fails only where memory runs out; what stood in the buffer then still stands in front.
pub fn write_number(leaf: &NumLeaf, v: &Value, out: &mut Vec<u8>) -> Result<(), NoMemory>
    ensures added { OnOk result (out.new.items ≡ out.old.items ++ compact_text (lines.num_json leaf.now.kind leaf.now.items.items (data_of v.now))) }
    ensures kept { OnErr result (Kept out.old.items out.new.items) }
{
    match (leaf.kind, v) {
        (NumKind::Integer, Value::Int(x)) => put_number(x, out),
        (NumKind::Boolean, Value::Bool(truth)) => put_truth(*truth, out),
        (NumKind::Enumerated, Value::Item(at)) => {
            put_quoted(item_name(leaf.items.items.items(), *at), out)
        }
        _ => put_null(out),
    }
}

#[cycle(write)]
fn write_node(alloc: Global, node: &Node, v: &Value, out: &mut Vec<u8>) -> Result<(), NoMemory>
    ensures { OnOk result (out.new.items ≡ out.old.items ++ compact_text (lines.json_of (grammar_of node.now) (data_of v.now))) }
{
    match &node.body {
        Body::Num(leaf) => write_number(leaf, v, out),
        Body::Octets(_) => match v {
            Value::Octets(octets) => put_octets(alloc, octets.items(), out),
            _ => put_null(out),
        },
        Body::Bits(_) => match v {
            Value::Bits(bits) => put_bits(bits.items(), out),
            _ => put_null(out),
        },
        Body::Text(_) => match v {
            Value::Text(text) => put_quoted(text.items(), out),
            _ => put_null(out),
        },
        Body::Seq(seq) => match v {
            Value::Seq(places) => { write_object(alloc, seq.fields.items(), places.items(), out) }
            _ => put_null(out),
        },
        Body::List(_, element) => match v {
            Value::List(elements) => write_array(alloc, element.get(), elements.items(), out),
            _ => put_null(out),
        },
        Body::Choice(choice) => match v {
            Value::Alt(at, inside) => {
                write_alternative(alloc, choice.alternatives.items(), *at, inside.get(), out)
            }
            _ => put_null(out),
        },
        Body::Contained(_, content) => write_node(alloc, content.get(), v, out),
    }
}

#[cycle(write)]
fn write_object(
    alloc: Global,
    fields: &[Field],
    places: &[Option<Value>],
    out: &mut Vec<u8>,
) -> Result<(), NoMemory>
    ensures { OnOk result (out.new.items ≡ out.old.items ++ 123 ∷ members_text false (lines.fields_json no_members (fields_view fields.now) (places_view places.now))) }
{
    let known = spots_of(alloc, fields, places)?;
    put_octet(b'{', out)?;
    write_members(alloc, fields, places, &known, out)
}

// The members of these spots, and the closing brace.
#[cycle(write)]
fn write_members(
    alloc: Global,
    fields: &[Field],
    places: &[Option<Value>],
    known: &BTreeMap<&[u8], Spot>,
    out: &mut Vec<u8>,
) -> Result<(), NoMemory>
    requires { AreWithin (length fields.now) (length places.now) known.now.entries }
    ensures { OnOk result (out.new.items ≡ out.old.items ++ members_text false (members_at (json_at fields.now places.now) known.now.entries)) }
{
    let mut later = false;
    for (name, spot) in known.iter() {
        put_comma(later, out)?;
        put_key(name, out)?;
        write_place(alloc, &fields[spot.field], &places[spot.place], out)?;
        later = true;
    }
    put_octet(b'}', out)
}

#[cycle(write)]
fn write_place(
    alloc: Global,
    field: &Field,
    place: &Option<Value>,
    out: &mut Vec<u8>,
) -> Result<(), NoMemory>
    ensures { OnOk result (out.new.items ≡ out.old.items ++ compact_text (place_json (field_of field.now) (option_map data_of place.now))) }
{
    match field {
        Field::Component { node, .. } => match place {
            Some(v) => write_node(alloc, node, v, out),
            None => put_null(out),
        },
        Field::Inserted { .. } => put_null(out),
    }
}

#[cycle(write)]
fn write_array(
    alloc: Global,
    element: &Node,
    elements: &[Value],
    out: &mut Vec<u8>,
) -> Result<(), NoMemory>
    ensures { OnOk result (out.new.items ≡ out.old.items ++ 91 ∷ items_text false (lines.each_json (lines.json_of (grammar_of element.now)) (elements_view elements.now))) }
{
    put_octet(b'[', out)?;
    let mut later = false;
    for v in elements {
        put_comma(later, out)?;
        write_node(alloc, element, v, out)?;
        later = true;
    }
    put_octet(b']', out)
}

#[cycle(write)]
fn write_alternative(
    alloc: Global,
    alternatives: &[Alternative],
    at: u32,
    v: &Value,
    out: &mut Vec<u8>,
) -> Result<(), NoMemory>
    ensures { OnOk result (out.new.items ≡ out.old.items ++ 123 ∷ members_text false (lines.alternative_json (alternatives_view alternatives.now) at (data_of v.now))) }
{
    match alternatives.get(at as usize) {
        Some(alternative) => {
            put_octet(b'{', out)?;
            put_key(alternative.name.bytes(), out)?;
            write_node(alloc, &alternative.node, v, out)?;
            put_octet(b'}', out)
        }
        None => put(b"{}", out),
    }
}

/// The line of a value, without its end: compact JSON (RFC 8259) as `serde_json` prints it, the members of an object in
/// byte order of their names. (Which JSON a value is, is this profile's own.)
pub fn to_line(alloc: Global, tree: &Tree, v: &Value) -> Result<Vec<u8>, NoMemory>
    ensures { IfOk result (λ line. line.items ≡ lines.line_of (grammar_of tree.now.root) (data_of v.now)) }
{
    let mut line = Vec::with_capacity(alloc, USUAL_BYTES)?;
    write_node(alloc, tree.root(), v, &mut line)?;
    Ok(line)
}
