//! How long what stands at the front of some bytes is.

ghost use Rattle.std.specs.Prelude.{◌≡◌, ◌≤◌, ◌<◌, ◌+◌, ◌∷◌, drop, length, IfSome, IsTrue, false};
ghost use Rattle.std.specs.Char.{is_ascii_digit};
ghost use Rattle.acn_lex.specs.Scan as spec;
ghost use Rattle.acn_lex.specs.Bytes as classes;

use crate::Kind;
use crate::literal::{digits_step, text_step};
use crate::number::{is_unwritten, number_of};

/// What stands at a place.
#[derive(Clone, Copy)]
pub enum Step {
    End,
    Gap(usize),
    Token(Kind, usize),
    BadByte,
    Unclosed,
    TooWide,
}

pub fn is_white(b: u8) -> bool
    ensures { result ≡ classes.is_white b }
{
    b == b' ' || 9 <= b && b <= 13
}

fn is_line_end(b: u8) -> bool
    ensures { result ≡ classes.is_line_end b }
{
    10 <= b && b <= 13
}

fn starts_alnum(bytes: &[u8]) -> bool
    ensures { result ≡ classes.starts_alnum bytes.now }
{
    match bytes {
        [] => false,
        [first, ..] => first.is_ascii_alphanumeric(),
    }
}

pub fn starts_with(byte: u8, bytes: &[u8]) -> bool
    ensures { result ≡ classes.starts_with byte bytes.now }
{
    match bytes {
        [] => false,
        [first, ..] => *first == byte,
    }
}

fn continues(b: u8, rest: &[u8]) -> bool
    ensures { result ≡ classes.continues b rest.now }
{
    b.is_ascii_alphanumeric() || b == b'-' && starts_alnum(rest)
}

fn word_len(bytes: &[u8]) -> usize
    ensures value { result ≡ spec.word_len bytes.now }
    ensures within { result ≤ length bytes.now }
{
    for (i, b) in bytes.iter().enumerate() {
        if !continues(*b, &bytes[i + 1..]) {
            return i;
        }
    }
    bytes.len()
}

fn digits_len(bytes: &[u8]) -> usize
    ensures value { result ≡ spec.run_len is_ascii_digit bytes.now }
    ensures within { result ≤ length bytes.now }
{
    for (i, b) in bytes.iter().enumerate() {
        if !b.is_ascii_digit() {
            return i;
        }
    }
    bytes.len()
}

fn comment_len(bytes: &[u8]) -> usize
    ensures value { result ≡ spec.comment_len bytes.now }
    ensures within { result ≤ length bytes.now }
{
    for (i, b) in bytes.iter().enumerate() {
        if is_line_end(*b) {
            return i + 1;
        }
        if *b == b'-' && starts_with(b'-', &bytes[i + 1..]) {
            return i + 2;
        }
    }
    bytes.len()
}

fn opens(b: u8, rest: &[u8]) -> bool
    ensures { result ≡ spec.opens b rest.now }
{
    b == b'/' && starts_with(b'*', rest)
}

fn closes(b: u8, rest: &[u8]) -> bool
    ensures { result ≡ spec.closes b rest.now }
{
    b == b'*' && starts_with(b'/', rest)
}

fn block_end(bytes: &[u8]) -> Option<usize>
    ensures value { result ≡ spec.block_end false 0 0 bytes.now }
    ensures within { IfSome result (λ n. n ≤ length bytes.now) }
{
    let mut depth = 0usize;
    let mut skip = false;
    for (i, b) in bytes.iter().enumerate() {
        if skip {
            skip = false;
            continue;
        }
        if opens(*b, &bytes[i + 1..]) {
            depth += 1;
            skip = true;
            continue;
        }
        if closes(*b, &bytes[i + 1..]) {
            if depth == 0 {
                return Some(i + 2);
            }
            depth -= 1;
            skip = true;
        }
    }
    None
}

fn is_single(b: u8) -> bool
    ensures { result ≡ classes.is_single b }
{
    b".,;:{}()[]<>|^-=@!&".contains(&b)
}

fn mark_len(b: u8, rest: &[u8]) -> usize
    ensures value { result ≡ spec.mark_len b rest.now }
    ensures within { result ≤ length rest.now + 1 }
{
    match (b, rest) {
        (b':', [b':', b'=', ..]) => 3,
        (b'.', [b'.', b'.', ..]) => 3,
        (b'.', [b'.', ..]) => 2,
        (b'=', [b'=', ..]) => 2,
        _ => { if is_single(b) { 1 } else { 0 } }
    }
}

#[tactic(auto, unfolding(crate::specs::Scan::number_step))]
fn number_step(text: &[u8]) -> Step
    requires { 0 < length text.now }
    ensures value { result ≡ spec.number_step text.now }
    ensures within { spec.IsWithin result (length text.now) }
{
    if is_unwritten(text) {
        return Step::BadByte;
    }
    match number_of(text) {
        Some(_) => Step::Token(Kind::Number, text.len()),
        None => Step::TooWide,
    }
}

/// What stands at the front.
#[tactic(auto, unfolding(crate::specs::Scan::step_at))]
pub fn step_at(bytes: &[u8]) -> Step
    ensures value { result ≡ spec.step_at bytes.now }
    ensures within { spec.IsWithin result (length bytes.now) }
{
    match bytes {
        [] => Step::End,
        [b, rest @ ..] => step_of(bytes, *b, rest),
    }
}

fn block_step(rest: &[u8]) -> Step
    requires { 0 < length rest.now }
    ensures value { result ≡ spec.block_step (spec.block_end false 0 0 (drop 1 rest.now)) }
    ensures within { spec.IsWithin result (length rest.now + 1) }
{
    match block_end(&rest[1..]) {
        Some(n) => Step::Gap(n + 2),
        None => Step::Unclosed,
    }
}

fn mark_step(b: u8, rest: &[u8]) -> Step
    ensures value { result ≡ spec.mark_step (spec.mark_len b rest.now) }
    ensures within { spec.IsWithin result (length rest.now + 1) }
{
    match mark_len(b, rest) {
        0 => Step::BadByte,
        n => Step::Token(Kind::Mark, n),
    }
}

#[tactic(auto, unfolding(crate::specs::Scan::step_of))]
fn step_of(bytes: &[u8], b: u8, rest: &[u8]) -> Step
    requires { bytes.now ≡ b ∷ rest.now }
    ensures value { result ≡ spec.step_of b rest.now }
    ensures within { spec.IsWithin result (length rest.now + 1) }
{
    if is_white(b) {
        return Step::Gap(1);
    }
    if b == b'-' && starts_with(b'-', rest) {
        return Step::Gap(comment_len(&rest[1..]) + 2);
    }
    if opens(b, rest) {
        return block_step(rest);
    }
    if b.is_ascii_alphabetic() {
        return Step::Token(Kind::Word, word_len(rest) + 1);
    }
    if b.is_ascii_digit() {
        return number_step(&bytes[..digits_len(rest) + 1]);
    }
    if b == b'\'' {
        return digits_step(rest);
    }
    if b == b'"' {
        return text_step(rest);
    }
    mark_step(b, rest)
}
