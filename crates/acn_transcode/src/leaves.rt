//! Number leaves.

ghost use Rattle.std.specs.Prelude.{◌≡◌, ◌++◌, ◌+◌, ◌^◌, ◌<◌, ◌≤◌, ◌≤ℤ◌, ◌<ℤ◌, ℤ, pos, neg_ℤ, nat_abs, take, true, IsTrue, IfSome, OnOk, OnErr};
ghost use Rattle.json.specs.Token as token;
ghost use Rattle.json.specs.Print.{quoted, token_text};
ghost use Rattle.std.specs.Ordering.{int_eq};
ghost use Rattle.std.specs.Fmt.{decimal, signed_decimal};
ghost use Rattle.serde_json.specs.Written.{compact_text};
ghost use Rattle.acn_num.specs.Ranges.{In};
ghost use Rattle.acn_bits.specs.Reading.{Reads};
ghost use Rattle.acn_cut.specs.Cuts.{IsCut};
ghost use Rattle.acn_grammar.specs.Code.{Any, Code, NumberOf};
ghost use Rattle.acn_grammar.specs.Grammar.{Data, num};
ghost use Rattle.acn_grammar.specs.ItemsNamed.{FormItemsNamed};
ghost use Rattle.acn_grammar.specs.Leaves.{num_fine};
ghost use Rattle.acn_grammar.specs.Length.{number_of};
ghost use Rattle.acn_json.specs.Kept.{Kept};
ghost use Rattle.acn_json.specs.Lines.{num_json};
ghost use Rattle.acn_lines.specs.Order.{IsLeafOrder};
ghost use Rattle.acn_reads.specs.Steps.{noted_by};
ghost use Rattle.acn_transcode.specs.Puts.{Puts};
ghost use Rattle.acn_transcode.specs.Short.{IsShort};

use crate::draft::Draft;
use crate::short::{Short, behind_minus, short_name};
use acn_bits::ReadCursor;
use acn_cut::{Cut, read_cut};
use acn_grammar::{NumKind, NumLeaf};
use acn_ints::read_num;
use acn_json::{item_name, put, put_null, put_octet, put_quoted};
use acn_lines::Order;
use acn_num::NoMemory;
use itoa::Buffer;

// The greatest number below zero that has more than four digits.
const BELOW_FEW: i128 = -10_000;

// The number of any leaf, whose code is passed.
fn any_number(cur: &mut ReadCursor<'_>, leaf: &NumLeaf) -> Option<i128>
    requires { IsTrue (num_fine leaf.now) }
    ensures { IfSome result (λ x. Reads (Code Any leaf.now x) cur.old cur.new) }
{
    match read_num(cur, leaf) {
        Ok(x) => Some(x),
        Err(_) => None,
    }
}

/// The number of a leaf, whose code is passed.
#[inline(always)]
pub fn number(cur: &mut ReadCursor<'_>, leaf: &NumLeaf, cut: &Option<Cut>) -> Option<i128>
    requires fine { IsTrue (num_fine leaf.now) }
    requires cut { IfSome cut.now (λ c. IsCut c leaf.now) }
    ensures read { IfSome result (λ x. Reads (Code Any leaf.now x) cur.old cur.new) }
{
    match cut {
        Some(cut) => read_cut(cur, cut),
        None => any_number(cur, leaf),
    }
}

// The decimal digit of a number below ten.
#[inline(always)]
fn digit_of(x: u64) -> u8
    requires { x < 10 }
    ensures { result ≡ 48 + x }
{
    b'0' + x as u8
}

// The text of a number of one digit.
#[inline(always)]
fn one_digit(x: u64) -> Short
    requires { x < 10 }
    ensures { IsShort result (decimal x) }
{
    Short {
        octets: [digit_of(x), 0, 0, 0, 0, 0, 0, 0],
        count: 1,
    }
}

// The text of a number of two digits.
#[inline(always)]
fn two_digits(x: u64) -> Short
    requires least { 10 ≤ x }
    requires most { x < 100 }
    ensures { IsShort result (decimal x) }
{
    Short {
        octets: [digit_of(x / 10), digit_of(x % 10), 0, 0, 0, 0, 0, 0],
        count: 2,
    }
}

// The text of a number of three digits.
#[inline(always)]
fn three_digits(x: u64) -> Short
    requires least { 100 ≤ x }
    requires most { x < 1000 }
    ensures { IsShort result (decimal x) }
{
    let hundreds = digit_of(x / 100);
    let tens = digit_of(x / 10 % 10);
    let ones = digit_of(x % 10);
    Short {
        octets: [hundreds, tens, ones, 0, 0, 0, 0, 0],
        count: 3,
    }
}

// The text of a number of four digits.
#[inline(always)]
fn four_digits(x: u64) -> Short
    requires least { 1000 ≤ x }
    requires most { x < 10000 }
    ensures { IsShort result (decimal x) }
{
    let thousands = digit_of(x / 1_000);
    let hundreds = digit_of(x / 100 % 10);
    let tens = digit_of(x / 10 % 10);
    let ones = digit_of(x % 10);
    Short {
        octets: [thousands, hundreds, tens, ones, 0, 0, 0, 0],
        count: 4,
    }
}

// The text of a number of five digits.
#[inline(always)]
fn five_digits(x: u64) -> Short
    requires least { 10000 ≤ x }
    requires most { x < 100000 }
    ensures { IsShort result (decimal x) }
{
    let first = digit_of(x / 10_000);
    let thousands = digit_of(x / 1_000 % 10);
    let hundreds = digit_of(x / 100 % 10);
    let tens = digit_of(x / 10 % 10);
    let ones = digit_of(x % 10);
    Short {
        octets: [first, thousands, hundreds, tens, ones, 0, 0, 0],
        count: 5,
    }
}

// The text of a natural number of at most four digits.
#[inline(always)]
fn few_digits(x: u64) -> Short
    requires { x < 10000 }
    ensures { IsShort result (decimal x) }
{
    if x < 10 {
        one_digit(x)
    } else if x < 100 {
        two_digits(x)
    } else if x < 1_000 {
        three_digits(x)
    } else {
        four_digits(x)
    }
}

// How far a number lies below zero, where it lies there and has at most four digits.
fn below_zero(x: &i128) -> Option<u64>
    ensures { IfSome result (λ n. (0 < n) × (n < 10000) × (x.now ≡ neg_ℤ (pos n))) }
{
    let number = *x;
    if number < 0 && BELOW_FEW < number {
        Some((0 - number) as u64)
    } else {
        None
    }
}

// The text of a number below zero that has at most four digits.
fn short_negative(x: &i128) -> Option<Short>
    ensures { IfSome result (λ short. IsShort short (signed_decimal x.now)) }
{
    match below_zero(x) {
        Some(size) => behind_minus(&few_digits(size)),
        None => None,
    }
}

// The text of a number of five digits, or of a few behind a sign.
fn longer_number(x: &i128) -> Option<Short>
    ensures { IfSome result (λ short. IsShort short (signed_decimal x.now)) }
{
    match u64::try_from(*x) {
        Ok(natural) => {
            if 10_000 <= natural && natural < 100_000 {
                Some(five_digits(natural))
            } else {
                None
            }
        }
        Err(_) => short_negative(x),
    }
}

// The text of a number that has at most four digits and no sign.
#[inline(always)]
fn short_number(x: &i128) -> Option<Short>
    ensures { IfSome result (λ short. IsShort short (signed_decimal x.now)) }
{
    match u64::try_from(*x) {
        Ok(natural) => {
            if natural < 10_000 {
                Some(few_digits(natural))
            } else {
                None
            }
        }
        Err(_) => None,
    }
}

// The text of a BOOLEAN.
#[inline(always)]
fn short_truth(truth: bool) -> Short
    ensures { IsShort result (token_text (token.boolean truth)) }
{
    if truth {
        Short {
            octets: *b"true\0\0\0\0",
            count: 4,
        }
    } else {
        Short {
            octets: *b"false\0\0\0",
            count: 5,
        }
    }
}

/// The text of the value of a leaf's number, where it is short for sure.
#[inline(always)]
pub fn short_value(leaf: &NumLeaf, x: &i128) -> Option<Short>
    requires fine { IsTrue (num_fine leaf.now) }
    requires permitted { In leaf.now.set x.now }
    ensures { IfSome result (λ short. (d : Data) × NumberOf leaf.now.kind d x.now × IsShort short (compact_text (num_json leaf.now.kind leaf.now.items.items d))) }
{
    match leaf.kind {
        NumKind::Integer => short_number(x),
        NumKind::Boolean => Some(short_truth(is_one(x))),
        NumKind::Enumerated => None,
        NumKind::Null => Some(Short {
            octets: *b"null\0\0\0\0",
            count: 4,
        }),
    }
}

// Puts a short text: all its octets at once, of which those that aren't meant are taken back.
#[inline(always)]
fn put_short(short: &Short, text: &mut Vec<u8>) -> Result<(), NoMemory>
    requires few { short.now.count ≤ 8 }
    ensures added { OnOk result (text.new.items ≡ text.old.items ++ take short.now.count short.now.octets) }
    ensures kept { OnErr result (Kept text.old.items text.new.items) }
{
    put(&short.octets, text)?;
    text.truncate(text.len() - (8 - short.count));
    Ok(())
}

// Puts a whole number, which may have many digits.
fn put_long_number(x: &i128, text: &mut Vec<u8>) -> Result<(), NoMemory>
    ensures added { OnOk result (text.new.items ≡ text.old.items ++ signed_decimal x.now) }
    ensures kept { OnErr result (Kept text.old.items text.new.items) }
{
    let mut buffer = Buffer::new();
    put(buffer.format(*x).as_bytes(), text)
}

// Puts a whole number.
fn put_number(x: &i128, text: &mut Vec<u8>) -> Result<(), NoMemory>
    ensures added { OnOk result (text.new.items ≡ text.old.items ++ signed_decimal x.now) }
    ensures kept { OnErr result (Kept text.old.items text.new.items) }
{
    match longer_number(x) {
        Some(short) => put_short(&short, text),
        None => put_long_number(x, text),
    }
}

// Puts the string of a name.
fn put_name(name: &[u8], text: &mut Vec<u8>) -> Result<(), NoMemory>
    ensures added { OnOk result (text.new.items ≡ text.old.items ++ quoted name.now) }
    ensures kept { OnErr result (Kept text.old.items text.new.items) }
{
    match short_name(name) {
        Some(short) => put_short(&short, text),
        None => put_quoted(name, text),
    }
}

// A small number, which isn't below zero.
fn natural(x: &i128) -> u32
    requires least { pos 0 ≤ℤ x.now }
    requires small { x.now <ℤ pos (2 ^ 32) }
    ensures { result ≡ nat_abs x.now }
{
    let number = *x;
    number as u32
}

fn is_one(x: &i128) -> bool
    ensures { result ≡ int_eq x.now (pos 1) }
{
    *x == 1
}

/// Puts the value of a leaf's number, whose text may have any length.
#[inline(never)]
pub fn put_any_value(leaf: &NumLeaf, x: &i128, text: &mut Vec<u8>) -> Result<(), NoMemory>
    requires fine { IsTrue (num_fine leaf.now) }
    requires named { FormItemsNamed (num leaf.now) }
    requires permitted { In leaf.now.set x.now }
    ensures added { OnOk result ((d : Data) × NumberOf leaf.now.kind d x.now × (text.new.items ≡ text.old.items ++ compact_text (num_json leaf.now.kind leaf.now.items.items d))) }
    ensures kept { OnErr result (Kept text.old.items text.new.items) }
{
    match leaf.kind {
        NumKind::Integer => put_number(x, text),
        NumKind::Boolean => {
            if is_one(x) {
                put(b"true", text)
            } else {
                put(b"false", text)
            }
        }
        NumKind::Enumerated => put_name(item_name(leaf.items.items.items(), natural(x)), text),
        NumKind::Null => put_null(text),
    }
}

/// Puts the value of a leaf's number.
#[inline(always)]
pub fn put_value(leaf: &NumLeaf, x: &i128, text: &mut Vec<u8>) -> Result<(), NoMemory>
    requires fine { IsTrue (num_fine leaf.now) }
    requires named { FormItemsNamed (num leaf.now) }
    requires permitted { In leaf.now.set x.now }
    ensures added { OnOk result ((d : Data) × NumberOf leaf.now.kind d x.now × (text.new.items ≡ text.old.items ++ compact_text (num_json leaf.now.kind leaf.now.items.items d))) }
    ensures kept { OnErr result (Kept text.old.items text.new.items) }
{
    match short_value(leaf, x) {
        Some(short) => put_short(&short, text),
        None => put_any_value(leaf, x, text),
    }
}

/// Notes the number of a slot, where there is one.
#[inline(always)]
pub fn note(slots: &mut Vec<(u32, i128)>, slot: Option<u32>, x: &i128) -> bool
    ensures { result ≡ true → slots.new.items ≡ noted_by slot x.now slots.old.items }
{
    match slot {
        Some(slot) => slots.push((slot, *x)).is_ok(),
        None => true,
    }
}

/// The number of a leaf, whose code is passed, and which is noted where it is a slot's.
#[inline(always)]
pub fn note_number(
    leaf: &NumLeaf,
    order: &Order,
    slot: Option<u32>,
    cur: &mut ReadCursor<'_>,
    slots: &mut Vec<(u32, i128)>,
) -> Option<i128>
    requires fine { IsTrue (num_fine leaf.now) }
    requires named { FormItemsNamed (num leaf.now) }
    requires order { IsLeafOrder leaf.now order.now }
    ensures read { IfSome result (λ x. (d : Data) × NumberOf leaf.now.kind d x × In leaf.now.set x × Reads (Code Any leaf.now x) cur.old cur.new × (slots.new.items ≡ noted_by slot x slots.old.items)) }
{
    match number(cur, leaf, &order.cut) {
        Some(x) => { if note(slots, slot, &x) { Some(x) } else { None } }
        None => None,
    }
}

/// Puts the value of a number leaf, whose code is passed, and notes its number where it is a
/// slot's.
#[inline(always)]
pub fn put_leaf(
    leaf: &NumLeaf,
    order: &Order,
    slot: Option<u32>,
    cur: &mut ReadCursor<'_>,
    draft: &mut Draft,
) -> bool
    requires fine { IsTrue (num_fine leaf.now) }
    requires named { FormItemsNamed (num leaf.now) }
    requires order { IsLeafOrder leaf.now order.now }
    ensures put { result ≡ true → (d : Data) × Reads (λ bs. (x : ℤ) × NumberOf leaf.now.kind d x × Code Any leaf.now x bs) cur.old cur.new × Puts (compact_text (num_json leaf.now.kind leaf.now.items.items d)) draft.old draft.new × (draft.new.slots.items ≡ noted_by slot (number_of d) draft.old.slots.items) }
{
    match number(cur, leaf, &order.cut) {
        Some(x) => {
            note(&mut draft.slots, slot, &x) && put_value(leaf, &x, &mut draft.text).is_ok()
        }
        None => false,
    }
}
