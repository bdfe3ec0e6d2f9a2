//! What strings and numbers of JSON give to leaves.

ghost use Rattle.std.specs.Prelude.{◌≡◌, option_map, option_and_then, map, nat_lt, ◌==◌, Some};
ghost use Rattle.std.specs.List.{list_all};
ghost use Rattle.acn_grammar.specs.Asks.{same_name};
ghost use Rattle.acn_grammar.specs.View.{data_of};
ghost use Rattle.acn_grammar.specs.Grammar.{item, octet_string, bit_string, characters};
ghost use Rattle.acn_json.specs.Answers.{LeafAnswers};
ghost use Rattle.acn_json.specs.Reads as reads;
ghost use Rattle.serde_json.specs.Find.{as_str, as_number, as_integer};
ghost use Rattle.serde_json.specs.View.{view};

use crate::trouble::Trouble;
use acn_grammar::{NumKind, NumLeaf, Value};
use acn_num::{Name, Row};
use hex::FromHexError;
use serde_json::Value as Json;
use std::alloc::Global;

/// Whether two names are the same.
pub fn is_same(a: &[u8], b: &[u8]) -> bool
    ensures { result ≡ same_name a.now b.now }
{
    a == b
}

// The number of the item of this name.
fn item_number(name: &[u8], items: &[(Name, i128)]) -> Option<usize>
    ensures { result ≡ reads.item_number name.now 0 items.now }
{
    for (at, item) in items.iter().enumerate() {
        if is_same(item.0.bytes(), name) {
            return Some(at);
        }
    }
    None
}

// The item of this number. A number beyond 32 bits names none: so many items would take some 200 GB.
fn item_at(at: usize) -> Result<Value, Trouble>
    ensures { LeafAnswers data_of result (Some (item at)) }
{
    match u32::try_from(at) {
        Ok(at) => Ok(Value::Item(at)),
        Err(_) => Err(Trouble::NoMemory),
    }
}

fn whole(json: &Json) -> Option<i128>
    ensures { result ≡ option_and_then as_integer (as_number (view json.now)) }
{
    match json.as_number() {
        Some(number) => number.as_i128(),
        None => None,
    }
}

/// The item of a name.
pub fn item_of(items: &[(Name, i128)], name: &[u8]) -> Result<Value, Trouble>
    ensures { LeafAnswers data_of result (option_map item (reads.item_number name.now 0 items.now)) }
{
    match item_number(name, items) {
        Some(at) => item_at(at),
        None => Err(Trouble::Shape),
    }
}

fn item_from(items: &[(Name, i128)], json: &Json) -> Result<Value, Trouble>
    ensures { LeafAnswers data_of result (option_map item (option_and_then (λ s. reads.item_number s 0 items.now) (as_str (view json.now)))) }
{
    match json.as_str() {
        Some(name) => item_of(items, name.as_bytes()),
        None => Err(Trouble::Shape),
    }
}

/// The value of a number leaf.
pub fn number_from(leaf: &NumLeaf, json: &Json) -> Result<Value, Trouble>
    ensures { LeafAnswers data_of result (reads.num_from leaf.now.kind leaf.now.items.items (view json.now)) }
{
    match leaf.kind {
        NumKind::Integer => match whole(json) {
            Some(x) => Ok(Value::Int(x)),
            None => Err(Trouble::Shape),
        },
        NumKind::Boolean => match json.as_bool() {
            Some(truth) => Ok(Value::Bool(truth)),
            None => Err(Trouble::Shape),
        },
        NumKind::Enumerated => item_from(leaf.items.items.items(), json),
        NumKind::Null => {
            if json.is_null() {
                Ok(Value::Null)
            } else {
                Err(Trouble::Shape)
            }
        }
    }
}

/// The octets of a text of hexadecimal digits.
pub fn octets_of(alloc: Global, text: &str) -> Result<Row<u8>, Trouble>
    ensures { LeafAnswers (λ os. os) result (reads.octets_of text.now) }
{
    match hex::decode(alloc, text) {
        Ok(octets) => Ok(Row::from_vec(octets)),
        Err(FromHexError::OutOfMemory) => Err(Trouble::NoMemory),
        Err(FromHexError::InvalidHexCharacter { .. }) => Err(Trouble::Shape),
        Err(FromHexError::OddLength) => Err(Trouble::Shape),
        Err(FromHexError::InvalidStringLength) => Err(Trouble::Shape),
    }
}

/// The value of an octet string.
pub fn octets_from(alloc: Global, json: &Json) -> Result<Value, Trouble>
    ensures { LeafAnswers data_of result (option_map octet_string (option_and_then reads.octets_of (as_str (view json.now)))) }
{
    match json.as_str() {
        Some(text) => Ok(Value::Octets(octets_of(alloc, text)?)),
        None => Err(Trouble::Shape),
    }
}

fn is_bit(octet: u8) -> bool
    ensures { result ≡ reads.is_bit octet }
{
    octet == b'0' || octet == b'1'
}

fn are_bits(text: &[u8]) -> bool
    ensures { result ≡ list_all reads.is_bit text.now }
{
    for octet in text {
        if !is_bit(*octet) {
            return false;
        }
    }
    true
}

fn digits_of(alloc: Global, text: &[u8]) -> Result<Row<bool>, Trouble>
    ensures { LeafAnswers (λ bs. bs) result (Some (map (λ c. c == 49) text.now)) }
{
    let mut bits = Row::new(alloc);
    for octet in text {
        bits.push(*octet == b'1')?;
    }
    Ok(bits)
}

/// The bits of a text of the digits 0 and 1.
pub fn bits_of(alloc: Global, text: &[u8]) -> Result<Row<bool>, Trouble>
    ensures { LeafAnswers (λ bs. bs) result (reads.bits_of text.now) }
{
    if are_bits(text) {
        digits_of(alloc, text)
    } else {
        Err(Trouble::Shape)
    }
}

/// The value of a bit string.
pub fn bits_from(alloc: Global, json: &Json) -> Result<Value, Trouble>
    ensures { LeafAnswers data_of result (option_map bit_string (option_and_then reads.bits_of (as_str (view json.now)))) }
{
    match json.as_str() {
        Some(text) => Ok(Value::Bits(bits_of(alloc, text.as_bytes())?)),
        None => Err(Trouble::Shape),
    }
}

fn is_character(octet: u8) -> bool
    ensures { result ≡ nat_lt octet 128 }
{
    octet < 128
}

fn are_characters(text: &[u8]) -> bool
    ensures { result ≡ list_all (λ c. nat_lt c 128) text.now }
{
    for octet in text {
        if !is_character(*octet) {
            return false;
        }
    }
    true
}

/// The characters of a text, if none is over 127.
pub fn characters_of(alloc: Global, text: &[u8]) -> Result<Row<u8>, Trouble>
    ensures { LeafAnswers (λ cs. cs) result (reads.ascii_of text.now) }
{
    if are_characters(text) {
        Ok(Row::from_vec(Vec::from_slice(alloc, text)?))
    } else {
        Err(Trouble::Shape)
    }
}

/// The value of a text.
pub fn characters_from(alloc: Global, json: &Json) -> Result<Value, Trouble>
    ensures { LeafAnswers data_of result (option_map characters (option_and_then reads.ascii_of (as_str (view json.now)))) }
{
    match json.as_str() {
        Some(text) => Ok(Value::Text(characters_of(alloc, text.as_bytes())?)),
        None => Err(Trouble::Shape),
    }
}
