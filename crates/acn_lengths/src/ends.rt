ghost use Rattle.std.specs.Prelude.{◌≡◌, ◌+◌, ◌≤◌, ◌^◌, min, length, option_map};
ghost use Rattle.acn_grammar.specs.Length.{bit_length, form_length, fields_length, alternative_length, run_length, list_length, inserted_length, presence_bits, ending};
ghost use Rattle.acn_grammar.specs.View.{grammar_of, form_of, data_of, fields_view, places_view, elements_view, alternatives_view};
ghost use Rattle.acn_lengths.specs.Measured.{CanMeasure, CanMeasureForm, CanMeasureFields, CanMeasureField, CanMeasureEach, CanMeasureCase, CanMeasurePlace, place_length, presence_width, SoundValuesCanBeMeasured};

use crate::parts::{
    behind, bits_of, end_bits, index_bits, inserted_end, number_end, octets_end, padded, size_bits,
    text_end,
};
use acn_grammar::{Alternative, Body, Field, Node, Presence, SizeRule, Sizing, Value};

// The bits of a component's presence.
fn presence_bit(presence: &Presence) -> u64
    ensures value { result ≡ presence_width presence.now }
    ensures small { result ≤ 1 }
{
    match presence {
        Presence::Always => 0,
        Presence::Bit => 1,
        Presence::When(_) => 0,
    }
}

// How many presence bits stand in front of the fields.
fn presence_count(fields: &[Field], places: &[Option<Value>]) -> u64
    ensures { result ≡ length (presence_bits (fields_view fields.now) (places_view places.now)) }
{
    let mut count = 0u64;
    let mut at = 0;
    for field in fields {
        match field {
            Field::Component { presence, .. } => {
                if at == places.len() {
                    return count;
                }
                count += presence_bit(presence);
                at += 1;
            }
            Field::Inserted { .. } => {}
        }
    }
    count
}

/// The place behind a value that begins, with its padding, at a place: a count of bits from the start of the packet, or of the
/// octets round it. Places are held down to 2^40. It takes no memory.
#[cycle(end)]
pub fn bit_end(node: &Node, at: u64, v: &Value) -> u64
    requires can { CanMeasure (grammar_of node.now) (data_of v.now) }
    requires near { at ≤ 2 ^ 40 }
    ensures value { result ≡ min (at + bit_length (grammar_of node.now) at (data_of v.now)) (2 ^ 40) }
    ensures small { result ≤ 2 ^ 40 }
{
    body_end(&node.body, padded(node.align, at), v)
}

#[cycle(end)]
fn body_end(body: &Body, at: u64, v: &Value) -> u64
    requires can { CanMeasureForm (form_of body.now) (data_of v.now) }
    requires near { at ≤ 2 ^ 40 }
    ensures value { result ≡ min (at + form_length (form_of body.now) at (data_of v.now)) (2 ^ 40) }
    ensures small { result ≤ 2 ^ 40 }
{
    match body {
        Body::Num(leaf) => number_end(leaf, at, v),
        Body::Octets(sizing) => match v {
            Value::Octets(octets) => behind(
                behind(at, size_bits(&sizing.rule)),
                bits_of(8, octets.items().len() as u64),
            ),
            _ => at,
        },
        Body::Bits(sizing) => match v {
            Value::Bits(bits) => behind(
                behind(at, size_bits(&sizing.rule)),
                bits.items().len() as u64,
            ),
            _ => at,
        },
        Body::Text(leaf) => match v {
            Value::Text(text) => text_end(leaf, at, text.items().len() as u64),
            _ => at,
        },
        Body::Seq(seq) => match v {
            Value::Seq(places) => sequence_end(seq.fields.items(), at, places.items()),
            _ => at,
        },
        Body::List(sizing, element) => match v {
            Value::List(elements) => list_end(sizing, element.get(), at, elements.items()),
            _ => at,
        },
        Body::Choice(choice) => match v {
            Value::Alt(i, inside) => alternative_end(
                choice.alternatives.items(),
                behind(at, index_bits(&choice.rule)),
                *i,
                inside.get(),
            ),
            _ => at,
        },
        Body::Contained(sizing, content) => octets_end(
            behind(at, size_bits(&sizing.rule)),
            bit_end(content.get(), 0, v),
        ),
    }
}

#[cycle(end)]
fn sequence_end(fields: &[Field], at: u64, places: &[Option<Value>]) -> u64
    requires can { CanMeasureFields (fields_view fields.now) (places_view places.now) }
    requires near { at ≤ 2 ^ 40 }
    ensures value { result ≡ min (at + (length (presence_bits (fields_view fields.now) (places_view places.now)) + fields_length (fields_view fields.now) (at + length (presence_bits (fields_view fields.now) (places_view places.now))) (places_view places.now))) (2 ^ 40) }
    ensures small { result ≤ 2 ^ 40 }
{
    fields_end(fields, behind(at, presence_count(fields, places)), places)
}

#[cycle(end)]
fn place_end(node: &Node, at: u64, place: &Option<Value>) -> u64
    requires can { CanMeasurePlace (grammar_of node.now) (option_map data_of place.now) }
    requires near { at ≤ 2 ^ 40 }
    ensures value { result ≡ min (at + place_length (grammar_of node.now) at (option_map data_of place.now)) (2 ^ 40) }
    ensures small { result ≤ 2 ^ 40 }
{
    match place {
        Some(v) => bit_end(node, at, v),
        None => at,
    }
}

#[cycle(end)]
fn fields_end(fields: &[Field], at: u64, places: &[Option<Value>]) -> u64
    requires can { CanMeasureFields (fields_view fields.now) (places_view places.now) }
    requires near { at ≤ 2 ^ 40 }
    ensures value { result ≡ min (at + fields_length (fields_view fields.now) at (places_view places.now)) (2 ^ 40) }
    ensures small { result ≤ 2 ^ 40 }
{
    let mut end = at;
    let mut k = 0;
    for field in fields {
        match field {
            Field::Component { node, .. } => {
                if k == places.len() {
                    return end;
                }
                end = place_end(node, end, &places[k]);
                k += 1;
            }
            Field::Inserted { node, .. } => {
                end = inserted_end(node, end);
            }
        }
    }
    end
}

#[cycle(end)]
fn list_end(sizing: &Sizing, element: &Node, at: u64, elements: &[Value]) -> u64
    requires can { CanMeasureEach (CanMeasure (grammar_of element.now)) (elements_view elements.now) }
    requires near { at ≤ 2 ^ 40 }
    ensures value { result ≡ min (at + list_length (ending sizing.now.rule) sizing.now.rule (bit_length (grammar_of element.now)) at (elements_view elements.now)) (2 ^ 40) }
    ensures small { result ≤ 2 ^ 40 }
{
    match &sizing.rule {
        SizeRule::Prefix { width, .. } => {
            elements_end(element, behind(at, u64::from(*width)), elements)
        }
        SizeRule::Slot(_) => elements_end(element, at, elements),
        SizeRule::Ended(pattern) => {
            behind(elements_end(element, at, elements), end_bits(pattern))
        }
    }
}

#[cycle(end)]
fn elements_end(element: &Node, at: u64, elements: &[Value]) -> u64
    requires can { CanMeasureEach (CanMeasure (grammar_of element.now)) (elements_view elements.now) }
    requires near { at ≤ 2 ^ 40 }
    ensures value { result ≡ min (at + run_length (bit_length (grammar_of element.now)) at (elements_view elements.now)) (2 ^ 40) }
    ensures small { result ≤ 2 ^ 40 }
{
    let mut end = at;
    for v in elements {
        end = bit_end(element, end, v);
    }
    end
}

#[cycle(end)]
fn alternative_end(alternatives: &[Alternative], at: u64, i: u32, v: &Value) -> u64
    requires can { CanMeasureCase (alternatives_view alternatives.now) i (data_of v.now) }
    requires near { at ≤ 2 ^ 40 }
    ensures value { result ≡ min (at + alternative_length (alternatives_view alternatives.now) i at (data_of v.now)) (2 ^ 40) }
    ensures small { result ≤ 2 ^ 40 }
{
    match alternatives.get(i as usize) {
        Some(alternative) => bit_end(&alternative.node, at, v),
        None => at,
    }
}

/// A value of a sound node that meets its constraints can be measured.
pub fn sound_values_can_be_measured()
    ensures { SoundValuesCanBeMeasured }
{}
