//! Literals: bits and hexadecimal digits between apostrophes, and texts between quotation marks.

ghost use Rattle.std.specs.Prelude.{◌≡◌, ◌≤◌, ◌+◌, length, false};
ghost use Rattle.acn_lex.specs.Scan as spec;
ghost use Rattle.acn_lex.specs.Bytes as classes;

use crate::Kind;
use crate::scan::{Step, is_white, starts_with};

fn is_hex(b: u8) -> bool
    ensures { result ≡ classes.is_hex b }
{
    b.is_ascii_digit() || b'A' <= b && b <= b'F' || b'a' <= b && b <= b'f'
}

fn is_hex_or_white(b: u8) -> bool
    ensures { result ≡ classes.is_hex_or_white b }
{
    is_hex(b) || is_white(b)
}

fn is_bit_or_white(b: u8) -> bool
    ensures { result ≡ classes.is_bit_or_white b }
{
    b == b'0' || b == b'1' || is_white(b)
}

fn hex_len(bytes: &[u8]) -> usize
    ensures value { result ≡ spec.run_len classes.is_hex_or_white bytes.now }
    ensures within { result ≤ length bytes.now }
{
    for (i, b) in bytes.iter().enumerate() {
        if !is_hex_or_white(*b) {
            return i;
        }
    }
    bytes.len()
}

fn bits_len(bytes: &[u8]) -> usize
    ensures value { result ≡ spec.run_len classes.is_bit_or_white bytes.now }
    ensures within { result ≤ length bytes.now }
{
    for (i, b) in bytes.iter().enumerate() {
        if !is_bit_or_white(*b) {
            return i;
        }
    }
    bytes.len()
}

fn ended_step(run: usize, bits: usize, rest: &[u8]) -> Step
    requires { run ≤ 9223372036854775807 }
    ensures value { result ≡ spec.ended_step run bits rest.now }
    ensures within { spec.IsWithin result (run + length rest.now + 1) }
{
    match rest {
        [] => Step::Unclosed,
        [b'\'', b'H', ..] => Step::Token(Kind::Hex, run + 3),
        [b'\'', b'B', ..] => {
            if bits == run {
                Step::Token(Kind::Bits, run + 3)
            } else {
                Step::BadByte
            }
        }
        _ => Step::BadByte,
    }
}

#[tactic(auto, unfolding(crate::specs::Scan::digits_step))]
/// What the literal is whose apostrophe stands before these bytes.
pub fn digits_step(bytes: &[u8]) -> Step
    ensures value { result ≡ spec.digits_step bytes.now }
    ensures within { spec.IsWithin result (length bytes.now + 1) }
{
    let run = hex_len(bytes);
    ended_step(run, bits_len(bytes), &bytes[run..])
}

fn is_text_byte(b: u8) -> bool
    ensures { result ≡ classes.is_text_byte b }
{
    b != b'"' && 32 <= b && b <= 126
}

/// What the text is whose quotation mark stands before these bytes.
pub fn text_step(bytes: &[u8]) -> Step
    ensures value { result ≡ spec.text_from false 0 bytes.now }
    ensures within { spec.IsWithin result (length bytes.now + 1) }
{
    let mut skip = false;
    for (i, b) in bytes.iter().enumerate() {
        if skip {
            skip = false;
            continue;
        }
        if is_text_byte(*b) {
            continue;
        }
        if *b != b'"' {
            return Step::BadByte;
        }
        if !starts_with(b'"', &bytes[i + 1..]) {
            return Step::Token(Kind::Text, i + 2);
        }
        skip = true;
    }
    Step::Unclosed
}
