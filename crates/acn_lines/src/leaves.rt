//! What a token of a line gives to a leaf.

ghost use Rattle.std.specs.Prelude.{◌≡◌, ◌<◌, List, ℕ, ℤ, true, false, IfSome, Some, IsTrue, length, option_map, option_and_then, slice_index, ◌==◌};
ghost use Rattle.acn_grammar.specs.Grammar.{int, octet_string, bit_string, characters};
ghost use Rattle.acn_grammar.specs.View.{data_of};
ghost use Rattle.acn_grammar.specs.declared.node.NumKind.TheVariants as kind;
ghost use Rattle.acn_json.specs.Reads as reads;
ghost use Rattle.acn_lines.specs.Taken.{LeafTaken};
ghost use Rattle.serde_json.specs.Find.{as_str, as_integer};
ghost use Rattle.serde_json.specs.Read.{number_of};

use crate::tokens::{take_bool, take_digits, take_nothing, take_text};
use acn_grammar::{NumKind, NumLeaf, Value};
use acn_json::{bits_of, characters_of, item_of, octets_of};
use acn_num::Name;
use fast_float::Numeral;
use json::Reader;
use std::alloc::Global;

fn has_minus(text: &[u8]) -> bool
    ensures value { result ≡ (slice_index text.now 0 == 45) }
    ensures some { IsTrue result → 0 < length text.now }
{
    !text.is_empty() && text[0] == b'-'
}

fn natural(text: &[u8]) -> Option<Value>
    requires { (slice_index text.now 0 == 45) ≡ false }
    ensures { IfSome result (λ v. option_map int (option_and_then as_integer (number_of text.now)) ≡ Some (data_of v)) }
{
    let number = Numeral::scan(text).to_u64()?;
    Some(Value::Int(i128::from(number)))
}

fn negative(text: &[u8]) -> Option<Value>
    requires minus { (slice_index text.now 0 == 45) ≡ true }
    requires some { 0 < length text.now }
    ensures { IfSome result (λ v. option_map int (option_and_then as_integer (number_of text.now)) ≡ Some (data_of v)) }
{
    let number = Numeral::scan(&text[1..]).to_i64(true)?;
    if number < 0 {
        Some(Value::Int(i128::from(number)))
    } else {
        None
    }
}

// The whole number of a text, if it is written as one.
fn whole(text: &[u8]) -> Option<Value>
    ensures { IfSome result (λ v. option_map int (option_and_then as_integer (number_of text.now)) ≡ Some (data_of v)) }
{
    if has_minus(text) {
        negative(text)
    } else {
        natural(text)
    }
}

fn take_integer(reader: &mut Reader<'_>) -> Option<Value>
    ensures { (items : List (List ℕ × ℤ)) → IfSome result (λ v. LeafTaken (reads.num_from kind.Integer items) (data_of v) reader.old reader.new) }
{
    let digits = take_digits(reader)?;
    whole(digits.as_bytes())
}

fn take_truth(reader: &mut Reader<'_>) -> Option<Value>
    ensures { (items : List (List ℕ × ℤ)) → IfSome result (λ v. LeafTaken (reads.num_from kind.Boolean items) (data_of v) reader.old reader.new) }
{
    let truth = take_bool(reader)?;
    Some(Value::Bool(truth))
}

fn take_null(reader: &mut Reader<'_>) -> Option<Value>
    ensures { (items : List (List ℕ × ℤ)) → IfSome result (λ v. LeafTaken (reads.num_from kind.Null items) (data_of v) reader.old reader.new) }
{
    take_nothing(reader)?;
    Some(Value::Null)
}

fn take_item(items: &[(Name, i128)], reader: &mut Reader<'_>) -> Option<Value>
    ensures { IfSome result (λ v. LeafTaken (reads.num_from kind.Enumerated items.now) (data_of v) reader.old reader.new) }
{
    let name = take_text(reader)?;
    match item_of(items, name.as_bytes()) {
        Ok(value) => Some(value),
        Err(_) => None,
    }
}

/// Takes the value of a number leaf.
pub fn take_number(leaf: &NumLeaf, reader: &mut Reader<'_>) -> Option<Value>
    ensures { IfSome result (λ v. LeafTaken (reads.num_from leaf.now.kind leaf.now.items.items) (data_of v) reader.old reader.new) }
{
    match leaf.kind {
        NumKind::Integer => take_integer(reader),
        NumKind::Boolean => take_truth(reader),
        NumKind::Enumerated => take_item(leaf.items.items.items(), reader),
        NumKind::Null => take_null(reader),
    }
}

/// Takes an octet string.
pub fn take_octets(alloc: Global, reader: &mut Reader<'_>) -> Option<Value>
    ensures { IfSome result (λ v. LeafTaken (λ j. option_map octet_string (option_and_then reads.octets_of (as_str j))) (data_of v) reader.old reader.new) }
{
    let text = take_text(reader)?;
    match octets_of(alloc, text) {
        Ok(octets) => Some(Value::Octets(octets)),
        Err(_) => None,
    }
}

/// Takes a bit string.
pub fn take_bits(alloc: Global, reader: &mut Reader<'_>) -> Option<Value>
    ensures { IfSome result (λ v. LeafTaken (λ j. option_map bit_string (option_and_then reads.bits_of (as_str j))) (data_of v) reader.old reader.new) }
{
    let text = take_text(reader)?;
    match bits_of(alloc, text.as_bytes()) {
        Ok(bits) => Some(Value::Bits(bits)),
        Err(_) => None,
    }
}

/// Takes a text.
pub fn take_characters(alloc: Global, reader: &mut Reader<'_>) -> Option<Value>
    ensures { IfSome result (λ v. LeafTaken (λ j. option_map characters (option_and_then reads.ascii_of (as_str j))) (data_of v) reader.old reader.new) }
{
    let text = take_text(reader)?;
    match characters_of(alloc, text.as_bytes()) {
        Ok(characters) => Some(Value::Text(characters)),
        Err(_) => None,
    }
}
