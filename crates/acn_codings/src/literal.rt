ghost use Rattle.std.specs.Prelude.{◌≡◌, ◌+◌, ◌*◌, ◌≤◌, ◌<◌, ◌++◌, length, IfSome};
ghost use Rattle.acn_grammar.specs.declared.limits.TheConstants.{MOST_PATTERN_BITS};
ghost use Rattle.acn_codings.specs.Literals as spec;

use acn_acn_syntax::Literal;
use acn_grammar::{MOST_PATTERN_BITS, Pattern};
use arrayvec::ArrayVec;

// The number of a hexadecimal digit.
fn hex_digit(c: u8) -> Option<u8>
    ensures is { result ≡ spec.hex_digit c }
    ensures small { IfSome result (λ n. n < 16) }
{
    match c {
        b'0'..=b'9' => Some(c - b'0'),
        b'A'..=b'F' => Some(c - b'A' + 10),
        b'a'..=b'f' => Some(c - b'a' + 10),
        _ => None,
    }
}

// How many bits a digit is.
#[tactic(auto, unfolding(crate::specs::Literals::digit_bits))]
fn digit_count(hex: bool, c: u8) -> usize
    ensures is { result ≡ length (spec.digit_bits hex c) }
    ensures few { result ≤ 4 }
{
    if hex {
        match hex_digit(c) {
            Some(_) => 4,
            None => 0,
        }
    } else if c == b'0' || c == b'1' {
        1
    } else {
        0
    }
}

// Puts the four bits of a number behind others.
fn add_nibble(n: u8, bits: &mut ArrayVec<bool, MOST_PATTERN_BITS>)
    requires { length bits.old.items + 4 ≤ MOST_PATTERN_BITS }
    ensures { bits.new.items ≡ bits.old.items ++ spec.nibble n }
{
    bits.push(8 <= n);
    bits.push(4 <= n % 8);
    bits.push(2 <= n % 4);
    bits.push(1 <= n % 2);
}

// Puts the bits of a digit behind others.
#[tactic(auto, unfolding(crate::specs::Literals::digit_bits))]
fn add_digit(hex: bool, c: u8, bits: &mut ArrayVec<bool, MOST_PATTERN_BITS>)
    requires { length bits.old.items + length (spec.digit_bits hex c) ≤ MOST_PATTERN_BITS }
    ensures { bits.new.items ≡ bits.old.items ++ spec.digit_bits hex c }
{
    if hex {
        match hex_digit(c) {
            Some(n) => add_nibble(n, bits),
            None => {}
        }
    } else if c == b'0' {
        bits.push(false);
    } else if c == b'1' {
        bits.push(true);
    }
}

/// How many bits the digits of a text are; other characters count for none.
pub fn count_bits(hex: bool, text: &[u8]) -> u128
    ensures is { result ≡ length (spec.text_bits hex text.now) }
    ensures few { result ≤ 4 * length text.now }
{
    let mut total = 0u128;
    for c in text {
        total += digit_count(hex, *c) as u128;
    }
    total
}

// Whether the digits of a literal are hexadecimal, and the text in which they stand.
fn digits(literal: &Literal) -> (bool, &[u8])
    ensures { spec.text_bits result.0 result.1.now ≡ spec.bits_in literal.now }
{
    match literal {
        Literal::Bits(text) => (false, text.bytes()),
        Literal::Hex(text) => (true, text.bytes()),
    }
}

/// How many bits a literal has (X.680, 12.10 and 12.12).
pub fn bit_count(literal: &Literal) -> u128
    ensures { result ≡ length (spec.bits_in literal.now) }
{
    let (hex, text) = digits(literal);
    count_bits(hex, text)
}

/// The pattern of a literal; none where it has no bits, or more than `MOST_PATTERN_BITS`.
pub fn pattern_of(literal: &Literal) -> Option<Pattern>
    ensures { result ≡ spec.fitting (spec.bits_in literal.now) }
{
    let (hex, text) = digits(literal);
    let total = count_bits(hex, text);
    if total == 0 || total > MOST_PATTERN_BITS as u128 {
        return None;
    }
    let mut bits = ArrayVec::new();
    for c in text {
        add_digit(hex, *c, &mut bits);
    }
    Some(Pattern::new(&bits))
}
