//! Leaves whose values are numbers, read from a line as they are printed.

ghost use Rattle.std.specs.Prelude.{◌≡◌, ◌<◌, ◌++◌, ◌∷◌, List, ℕ, ℤ, IfSome, IsTrue, decimal, length};
ghost use Rattle.std.specs.Fmt.{signed_decimal};
ghost use Rattle.acn_grammar.specs.Grammar.{int, boolean, item};
ghost use Rattle.acn_grammar.specs.Leaves.{is_number};
ghost use Rattle.json.specs.Print.{quoted};
ghost use Rattle.acn_grammar.specs.View.{data_of};
ghost use Rattle.acn_grammar.specs.declared.node.NumKind.TheVariants as kind;
ghost use Rattle.acn_json.specs.Lines.{item_name};
ghost use Rattle.acn_printed.specs.Read.{IsNumberRead};

use crate::names::number_by_halves;
use crate::rest::Rest;
use acn_grammar::{NumKind, NumLeaf, Value};
use acn_json::is_same;
use acn_num::Name;

/// Numbers of more digits than this one has aren't read here.
const MOST_BEFORE_A_DIGIT: u64 = 100_000_000_000_000_000;

// A whole number without a sign, and what stands behind its digits. Of a number with more than 18 digits the front is read.
#[inline(always)]
fn digits(text: &[u8]) -> Option<(u64, &[u8])>
    ensures read { IfSome result (λ read. text.now ≡ decimal read.0 ++ read.1.now) }
    ensures few { IfSome result (λ read. read.0 < 1000000000000000000) }
{
    if text.len() == 0 {
        return None;
    }
    let first = text[0];
    if first == b'0' {
        return Some((0, text.split_at(1).1));
    }
    if first < b'1' || first > b'9' {
        return None;
    }
    let mut value = u64::from(first - b'0');
    let mut end = 1;
    while end < text.len() && value < MOST_BEFORE_A_DIGIT {
        let digit = text[end];
        if digit < b'0' || digit > b'9' {
            return Some((value, text.split_at(end).1));
        }
        value = 10 * value + u64::from(digit - b'0');
        end += 1;
    }
    Some((value, text.split_at(end).1))
}

// A whole number from 0.
#[inline(always)]
fn read_natural(rest: &mut Rest<'_>) -> Option<i128>
    ensures text { IfSome result (λ x. rest.old.text.now ≡ signed_decimal x ++ rest.new.text.now) }
    ensures said { IfSome result (λ x. IsTrue (is_number x)) }
{
    let (size, behind) = digits(rest.text)?;
    rest.text = behind;
    Some(i128::from(size))
}

// A whole number below 0, behind its sign.
#[inline(always)]
fn read_negative(rest: &mut Rest<'_>) -> Option<i128>
    ensures text { IfSome result (λ x. 45 ∷ rest.old.text.now ≡ signed_decimal x ++ rest.new.text.now) }
    ensures said { IfSome result (λ x. IsTrue (is_number x)) }
{
    let (size, behind) = digits(rest.text)?;
    if size == 0 {
        return None;
    }
    rest.text = behind;
    Some(-i128::from(size))
}

#[inline(always)]
fn read_whole(rest: &mut Rest<'_>) -> Option<i128>
    ensures text { IfSome result (λ x. rest.old.text.now ≡ signed_decimal x ++ rest.new.text.now) }
    ensures said { IfSome result (λ x. IsTrue (is_number x)) }
{
    if rest.pass(b'-') {
        read_negative(rest)
    } else {
        read_natural(rest)
    }
}

// Puts a whole number over an old value.
#[inline(always)]
fn put_whole(value: &mut Value, x: i128)
    ensures { data_of value.new ≡ int x }
{
    match value {
        Value::Int(old) => *old = x,
        _ => *value = Value::Int(x),
    }
}

// Puts a truth over an old value.
#[inline(always)]
fn put_truth(value: &mut Value, truth: bool)
    ensures { data_of value.new ≡ boolean truth }
{
    match value {
        Value::Bool(old) => *old = truth,
        _ => *value = Value::Bool(truth),
    }
}

// Puts the number of an item over an old value.
#[inline(always)]
fn put_item(value: &mut Value, at: u32)
    ensures { data_of value.new ≡ item at }
{
    match value {
        Value::Item(old) => *old = at,
        _ => *value = Value::Item(at),
    }
}

/// Reads the value of an INTEGER over an old value, if it comes next.
#[inline(always)]
pub fn read_integer(value: &mut Value, rest: &mut Rest<'_>) -> bool
    ensures { (items : List (List ℕ × ℤ)) → IsTrue result → IsNumberRead kind.Integer items (data_of value.new) rest.old.text.now rest.new.text.now }
{
    match read_whole(rest) {
        Some(x) => {
            put_whole(value, x);
            true
        }
        None => false,
    }
}

fn read_truth(value: &mut Value, rest: &mut Rest<'_>) -> bool
    ensures { (items : List (List ℕ × ℤ)) → IsTrue result → IsNumberRead kind.Boolean items (data_of value.new) rest.old.text.now rest.new.text.now }
{
    if rest.pass_all(b"true") {
        put_truth(value, true);
        return true;
    }
    if rest.pass_all(b"false") {
        put_truth(value, false);
        return true;
    }
    false
}

fn read_null(value: &mut Value, rest: &mut Rest<'_>) -> bool
    ensures { (items : List (List ℕ × ℤ)) → IsTrue result → IsNumberRead kind.Null items (data_of value.new) rest.old.text.now rest.new.text.now }
{
    if rest.pass_all(b"null") {
        *value = Value::Null;
        true
    } else {
        false
    }
}

// The number of the item of this name, looked for among all of them.
fn item_among(items: &[(Name, i128)], name: &[u8]) -> Option<usize>
    ensures within { IfSome result (λ at. at < length items.now) }
    ensures named { IfSome result (λ at. item_name items.now at ≡ name.now) }
{
    for (at, item) in items.iter().enumerate() {
        if is_same(item.0.bytes(), name) {
            return Some(at);
        }
    }
    None
}

// The number of an item of this name, looked for by halves where `names` are the numbers of all in
// byte order of their names.
fn item_named(items: &[(Name, i128)], names: &[u32], name: &[u8]) -> Option<usize>
    ensures within { IfSome result (λ at. at < length items.now) }
    ensures named { IfSome result (λ at. item_name items.now at ≡ name.now) }
{
    if names.is_empty() {
        return item_among(items, name);
    }
    let at = number_by_halves(items, names, name)?;
    if at >= items.len() {
        return None;
    }
    if is_same(items[at].0.bytes(), name) {
        Some(at)
    } else {
        None
    }
}

// The number of the item whose name comes next.
fn item_read(items: &[(Name, i128)], names: &[u32], rest: &mut Rest<'_>) -> Option<u32>
    ensures within { IfSome result (λ at. at < length items.now) }
    ensures text { IfSome result (λ at. rest.old.text.now ≡ quoted (item_name items.now at) ++ rest.new.text.now) }
{
    let name = rest.plain_string()?;
    let at = item_named(items, names, name)?;
    match u32::try_from(at) {
        Ok(at) => Some(at),
        Err(_) => None,
    }
}

fn read_item(items: &[(Name, i128)], names: &[u32], value: &mut Value, rest: &mut Rest<'_>) -> bool
    ensures { IsTrue result → IsNumberRead kind.Enumerated items.now (data_of value.new) rest.old.text.now rest.new.text.now }
{
    match item_read(items, names, rest) {
        Some(at) => {
            put_item(value, at);
            true
        }
        None => false,
    }
}

/// Reads the value of a leaf whose value is a number over an old value, if it comes next. `names`
/// are the numbers of its items in byte order of their names, or none.
pub fn read_number(leaf: &NumLeaf, names: &[u32], value: &mut Value, rest: &mut Rest<'_>) -> bool
    ensures { IsTrue result → IsNumberRead leaf.now.kind leaf.now.items.items (data_of value.new) rest.old.text.now rest.new.text.now }
{
    match leaf.kind {
        NumKind::Integer => read_integer(value, rest),
        NumKind::Boolean => read_truth(value, rest),
        NumKind::Enumerated => read_item(leaf.items.items.items(), names, value, rest),
        NumKind::Null => read_null(value, rest),
    }
}
