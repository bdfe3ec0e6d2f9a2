//! Strings that are read from a line as they are printed.

ghost use Rattle.std.specs.Prelude.{◌≡◌, ◌<◌, ◌/◌, ◌%◌, ◌++◌, true, IfSome, IsTrue, nat_lt, map};
ghost use Rattle.std.specs.Char.{digit_char};
ghost use Rattle.std.specs.List.{list_all};
ghost use Rattle.hex.specs.Hex.{encode_lower};
ghost use Rattle.json.specs.Print.{escape, quoted};
ghost use Rattle.acn_grammar.specs.Shaped.{are_octets};
ghost use Rattle.acn_json.specs.Lines.{bit_digit};

use crate::rest::Rest;
use acn_num::Row;
use std::alloc::Global;
use std::mem::replace;

/// The number of each lower case hexadecimal digit, and 255 of each octet that is none.
#[rattlefmt::skip]
const DIGIT_NUMBERS: [u8; 256] = [
    0xff, 0xff, 0xff, 0xff, 0xff, 0xff, 0xff, 0xff, 0xff, 0xff, 0xff, 0xff, 0xff, 0xff, 0xff, 0xff,
    0xff, 0xff, 0xff, 0xff, 0xff, 0xff, 0xff, 0xff, 0xff, 0xff, 0xff, 0xff, 0xff, 0xff, 0xff, 0xff,
    0xff, 0xff, 0xff, 0xff, 0xff, 0xff, 0xff, 0xff, 0xff, 0xff, 0xff, 0xff, 0xff, 0xff, 0xff, 0xff,
    0x00, 0x01, 0x02, 0x03, 0x04, 0x05, 0x06, 0x07, 0x08, 0x09, 0xff, 0xff, 0xff, 0xff, 0xff, 0xff,
    0xff, 0xff, 0xff, 0xff, 0xff, 0xff, 0xff, 0xff, 0xff, 0xff, 0xff, 0xff, 0xff, 0xff, 0xff, 0xff,
    0xff, 0xff, 0xff, 0xff, 0xff, 0xff, 0xff, 0xff, 0xff, 0xff, 0xff, 0xff, 0xff, 0xff, 0xff, 0xff,
    0xff, 0x0a, 0x0b, 0x0c, 0x0d, 0x0e, 0x0f, 0xff, 0xff, 0xff, 0xff, 0xff, 0xff, 0xff, 0xff, 0xff,
    0xff, 0xff, 0xff, 0xff, 0xff, 0xff, 0xff, 0xff, 0xff, 0xff, 0xff, 0xff, 0xff, 0xff, 0xff, 0xff,
    0xff, 0xff, 0xff, 0xff, 0xff, 0xff, 0xff, 0xff, 0xff, 0xff, 0xff, 0xff, 0xff, 0xff, 0xff, 0xff,
    0xff, 0xff, 0xff, 0xff, 0xff, 0xff, 0xff, 0xff, 0xff, 0xff, 0xff, 0xff, 0xff, 0xff, 0xff, 0xff,
    0xff, 0xff, 0xff, 0xff, 0xff, 0xff, 0xff, 0xff, 0xff, 0xff, 0xff, 0xff, 0xff, 0xff, 0xff, 0xff,
    0xff, 0xff, 0xff, 0xff, 0xff, 0xff, 0xff, 0xff, 0xff, 0xff, 0xff, 0xff, 0xff, 0xff, 0xff, 0xff,
    0xff, 0xff, 0xff, 0xff, 0xff, 0xff, 0xff, 0xff, 0xff, 0xff, 0xff, 0xff, 0xff, 0xff, 0xff, 0xff,
    0xff, 0xff, 0xff, 0xff, 0xff, 0xff, 0xff, 0xff, 0xff, 0xff, 0xff, 0xff, 0xff, 0xff, 0xff, 0xff,
    0xff, 0xff, 0xff, 0xff, 0xff, 0xff, 0xff, 0xff, 0xff, 0xff, 0xff, 0xff, 0xff, 0xff, 0xff, 0xff,
    0xff, 0xff, 0xff, 0xff, 0xff, 0xff, 0xff, 0xff, 0xff, 0xff, 0xff, 0xff, 0xff, 0xff, 0xff, 0xff,
];

// The number of a lower case hexadecimal digit.
#[inline]
fn digit_number(digit: u8) -> Option<u8>
    ensures read { IfSome result (λ n. digit ≡ digit_char n) }
    ensures small { IfSome result (λ n. n < 16) }
{
    let number = DIGIT_NUMBERS[digit as usize];
    if number < 16 { Some(number) } else { None }
}

// The octet of two digits.
#[inline]
fn octet_of(high: u8, low: u8) -> Option<u8>
    ensures { IfSome result (λ octet. (high ≡ digit_char (octet / 16)) × (low ≡ digit_char (octet % 16))) }
{
    let first = digit_number(high)?;
    let second = digit_number(low)?;
    Some(16 * first + second)
}

// These octets in a room, whatever stands in it.
#[inline]
fn filled(room: Vec<u8>, octets: &[u8]) -> Option<Vec<u8>>
    ensures { IfSome result (λ all. all.items ≡ octets.now) }
{
    let mut all = room;
    all.clear();
    match all.extend_from_slice(octets) {
        Ok(()) => Some(all),
        Err(_) => None,
    }
}

// Reads the octets of the hexadecimal digits that come next, into a room whatever stands in it.
#[inline(always)]
fn octets_of(room: Vec<u8>, rest: &mut Rest<'_>) -> Option<Vec<u8>>
    ensures { IfSome result (λ octets. rest.old.text.now ≡ escape (encode_lower octets.items) ++ rest.new.text.now) }
{
    let text = rest.text;
    let mut octets = room;
    octets.clear();
    let mut at = 0;
    while at + 1 < text.len() {
        match octet_of(text[at], text[at + 1]) {
            Some(octet) => {
                if octets.push(octet).is_err() {
                    return None;
                }
            }
            None => {
                rest.text = text.split_at(at).1;
                return Some(octets);
            }
        }
        at += 2;
    }
    rest.text = text.split_at(at).1;
    Some(octets)
}

// Bytes are octets.
#[inline(always)]
fn bytes_are_octets(bytes: &[u8])
    ensures { are_octets bytes.now ≡ true }
{
    let _bytes = bytes;
}

// Takes the memory of a string.
#[inline(always)]
fn room_of(alloc: Global, string: &mut Row<u8>) -> Vec<u8> {
    replace(string, Row::new(alloc)).into_vec()
}

// Reads an octet string, if one comes next, into a room whatever stands in it.
#[inline(always)]
fn octets_read(room: Vec<u8>, rest: &mut Rest<'_>) -> Option<Row<u8>>
    ensures text { IfSome result (λ octets. rest.old.text.now ≡ quoted (encode_lower octets) ++ rest.new.text.now) }
    ensures octets { IfSome result (λ octets. are_octets octets ≡ true) }
{
    if !rest.pass(b'"') {
        return None;
    }
    let octets = octets_of(room, rest)?;
    if !rest.pass(b'"') {
        return None;
    }
    bytes_are_octets(octets.as_slice());
    Some(Row::from_vec(octets))
}

/// Reads an octet string over an old string, if one comes next.
pub fn read_octets(alloc: Global, octets: &mut Row<u8>, rest: &mut Rest<'_>) -> bool
    ensures text { IsTrue result → rest.old.text.now ≡ quoted (encode_lower octets.new) ++ rest.new.text.now }
    ensures octets { IsTrue result → are_octets octets.new ≡ true }
{
    match octets_read(room_of(alloc, octets), rest) {
        Some(read) => {
            *octets = read;
            true
        }
        None => false,
    }
}

fn bit_of(digit: u8) -> Option<bool>
    ensures { IfSome result (λ bit. digit ≡ bit_digit bit) }
{
    match digit {
        b'0' => Some(false),
        b'1' => Some(true),
        _ => None,
    }
}

// The bits of the digits 0 and 1.
fn bits_of(alloc: Global, digits: &[u8]) -> Option<Row<bool>>
    ensures { IfSome result (λ bits. map bit_digit bits ≡ digits.now) }
{
    let mut bits = vec![in alloc; false; digits.len()].ok()?;
    let mut at = 0;
    while at < digits.len() {
        bits[at] = bit_of(digits[at])?;
        at += 1;
    }
    Some(Row::from_vec(bits))
}

/// Reads a bit string, if one comes next.
pub fn read_bits(alloc: Global, rest: &mut Rest<'_>) -> Option<Row<bool>>
    ensures { IfSome result (λ bits. rest.old.text.now ≡ quoted (map bit_digit bits) ++ rest.new.text.now) }
{
    let digits = rest.string()?;
    let bits = bits_of(alloc, digits)?;
    Some(bits)
}

// Reads a text, if one comes next whose characters stand for themselves, into a room whatever
// stands in it.
#[inline(always)]
fn characters_read(room: Vec<u8>, rest: &mut Rest<'_>) -> Option<Row<u8>>
    ensures text { IfSome result (λ cs. rest.old.text.now ≡ quoted cs ++ rest.new.text.now) }
    ensures octets { IfSome result (λ cs. are_octets cs ≡ true) }
    ensures said { IfSome result (λ cs. IsTrue (list_all (λ c. nat_lt c 128) cs)) }
{
    let text = rest.plain_string()?;
    bytes_are_octets(text);
    let characters = filled(room, text)?;
    Some(Row::from_vec(characters))
}

/// Reads a text over an old string, if one comes next whose characters stand for themselves.
pub fn read_characters(alloc: Global, characters: &mut Row<u8>, rest: &mut Rest<'_>) -> bool
    ensures text { IsTrue result → rest.old.text.now ≡ quoted characters.new ++ rest.new.text.now }
    ensures octets { IsTrue result → are_octets characters.new ≡ true }
    ensures said { IsTrue result → IsTrue (list_all (λ c. nat_lt c 128) characters.new) }
{
    match characters_read(room_of(alloc, characters), rest) {
        Some(read) => {
            *characters = read;
            true
        }
        None => false,
    }
}
