ghost use Rattle.std.specs.Prelude.{◌≡◌, ◌+◌, ◌-◌, ◌*◌, ◌/◌, ◌%◌, ◌^◌, ◌<◌, ◌≤◌, ℤ, pos, length, true, false, nat_abs, int_lt};
ghost use Rattle.acn_bits.specs.Writing.{place_of, Writes, Puts};
ghost use Rattle.acn_num.specs.Bits.{low_bits};
ghost use Rattle.acn_grammar.specs.Code.{Written, CodingCode};
ghost use Rattle.acn_grammar.specs.Length.{coding_length, digit_count};
ghost use Rattle.acn_grammar.specs.declared.node.NumCoding.TheVariants.{Bcd, BcdEnded, Ascii, AsciiEnded};
ghost use Rattle.acn_ints.specs.DigitWrites.{low_digits};
ghost use Rattle.acn_ints.specs.EndedReads.{digit_codes, sign_code};
ghost use Rattle.acn_ints.specs.Limits.{CanWrite, DigitsFit, SignedDigitsFit, EndFits, CodingFits};
ghost use Rattle.acn_bits.specs.declared.word.TheConstants.{WORD_BITS};

use crate::most::digits_of;
use crate::ordered::pattern_number;
use acn_bits::WriteCursor;
use acn_grammar::Pattern;

/// The power of ten.
fn power_of_ten(n: u32) -> u64
    requires { n ≤ 19 }
    ensures { result ≡ 10 ^ n }
{
    let mut power = 1u64;
    for i in 0..n {
        let _at = i;
        power *= 10;
    }
    power
}

/// Writes the digit of k at a power of ten.
fn put_digit<const N: usize>(
    cur: &mut WriteCursor<'_, N>,
    size: u32,
    zero_digit: u64,
    power: u64,
    k: u64,
)
    requires size { size ≤ 8 }
    requires code { zero_digit + 10 ≤ 2 ^ size }
    requires power { 1 ≤ power }
    requires room { place_of cur.old + size ≤ 8 * N }
    ensures { Writes cur.old cur.new (place_of cur.old) (low_bits size (zero_digit + k / power % 10)) (place_of cur.old + size) }
{
    cur.put(size, zero_digit + k / power % 10);
}

/// Writes n decimal digits, each in some bits.
fn put_digits<const N: usize>(
    cur: &mut WriteCursor<'_, N>,
    size: u32,
    zero_digit: u64,
    n: u32,
    k: u64,
)
    requires size { size ≤ 8 }
    requires zero_digit { zero_digit ≤ 48 }
    requires code { zero_digit + 10 ≤ 2 ^ size }
    requires some { 1 ≤ n }
    requires few { n ≤ 20 }
    requires room { place_of cur.old + size * n ≤ 8 * N }
    ensures { Writes cur.old cur.new (place_of cur.old) (digit_codes size zero_digit (low_digits n k)) (place_of cur.old + size * n) }
{
    let mut power = power_of_ten(n - 1);
    put_digit(cur, size, zero_digit, power, k);
    for i in 1..n {
        let _at = i;
        power /= 10;
        put_digit(cur, size, zero_digit, power, k);
    }
}

/// Writes a number of at most `WORD_BITS` bits behind what stands there.
fn put_bits<const N: usize>(cur: &mut WriteCursor<'_, N>, n: u32, v: u64)
    requires width { n ≤ WORD_BITS }
    requires fits { v < 2 ^ n }
    requires room { place_of cur.old + n ≤ 8 * N }
    ensures { Writes cur.old cur.new (place_of cur.old) (low_bits n v) (place_of cur.old + n) }
{
    cur.put(n, v);
}

/// Writes decimal digits of four bits.
pub fn put_bcd<const N: usize>(cur: &mut WriteCursor<'_, N>, n: u32, y: &i128)
    requires digits { DigitsFit 4 n }
    requires can { CanWrite (Bcd n) y.now }
    requires room { place_of cur.old + n ≤ 8 * N }
    ensures code { Puts (CodingCode Written (Bcd n) false y.now) cur.old cur.new }
    ensures long { place_of cur.new ≡ place_of cur.old + n }
{
    put_digits(cur, 4, 0, n / 4, magnitude(y));
}

/// Writes decimal digits of four bits, and four ones behind them.
pub fn put_bcd_ended<const N: usize>(cur: &mut WriteCursor<'_, N>, y: &i128)
    requires can { CanWrite BcdEnded y.now }
    requires room { place_of cur.old + coding_length BcdEnded y.now ≤ 8 * N }
    ensures code { Puts (CodingCode Written BcdEnded false y.now) cur.old cur.new }
    ensures long { place_of cur.new ≡ place_of cur.old + coding_length BcdEnded y.now }
{
    let k = magnitude(y);
    put_digits(cur, 4, 0, digits_of(u128::from(k)), k);
    put_bits(cur, 4, 15);
}

/// Writes decimal digits of an octet each.
fn put_ascii<const N: usize>(cur: &mut WriteCursor<'_, N>, n: u32, y: &i128)
    requires digits { DigitsFit 8 n }
    requires can { CanWrite (Ascii n false) y.now }
    requires room { place_of cur.old + n ≤ 8 * N }
    ensures code { Puts (CodingCode Written (Ascii n false) false y.now) cur.old cur.new }
    ensures long { place_of cur.new ≡ place_of cur.old + n }
{
    put_digits(cur, 8, 48, n / 8, magnitude(y));
}

/// Writes decimal digits of an octet each, and a terminator behind them.
fn put_ascii_ended<const N: usize>(cur: &mut WriteCursor<'_, N>, end: &Pattern, y: &i128)
    requires end { EndFits end.now }
    requires can { CanWrite (AsciiEnded end.now false) y.now }
    requires room { place_of cur.old + coding_length (AsciiEnded end.now false) y.now ≤ 8 * N }
    ensures code { Puts (CodingCode Written (AsciiEnded end.now false) false y.now) cur.old cur.new }
    ensures long { place_of cur.new ≡ place_of cur.old + coding_length (AsciiEnded end.now false) y.now }
{
    let k = magnitude(y);
    put_digits(cur, 8, 48, digits_of(u128::from(k)), k);
    put_end(cur, end);
}

/// Writes a terminator.
fn put_end<const N: usize>(cur: &mut WriteCursor<'_, N>, end: &Pattern)
    requires room { place_of cur.old + length end.now ≤ 8 * N }
    ensures { Writes cur.old cur.new (place_of cur.old) end.now (place_of cur.old + length end.now) }
{
    let bits = end.bits();
    put_bits(cur, bits.len() as u32, pattern_number(bits));
}

/// Writes the octet of the sign.
fn put_sign<const N: usize>(cur: &mut WriteCursor<'_, N>, negative: bool)
    requires room { place_of cur.old + 8 ≤ 8 * N }
    ensures { Writes cur.old cur.new (place_of cur.old) (low_bits 8 (sign_code negative)) (place_of cur.old + 8) }
{
    if negative {
        put_bits(cur, 8, 45);
    } else {
        put_bits(cur, 8, 43);
    }
}

/// Whether the number is negative.
fn is_negative(y: &i128) -> bool
    ensures { result ≡ int_lt y.now (pos 0) }
{
    *y < 0
}

/// The magnitude of a number of at most 64 bits.
fn magnitude(y: &i128) -> u64
    requires { nat_abs y.now < 2 ^ 64 }
    ensures { result ≡ nat_abs y.now }
{
    y.unsigned_abs() as u64
}

/// Writes a sign octet and decimal digits of an octet each, n bits together.
fn put_ascii_signed<const N: usize>(cur: &mut WriteCursor<'_, N>, n: u32, y: &i128)
    requires digits { SignedDigitsFit n }
    requires can { CanWrite (Ascii n true) y.now }
    requires room { place_of cur.old + n ≤ 8 * N }
    ensures code { Puts (CodingCode Written (Ascii n true) false y.now) cur.old cur.new }
    ensures long { place_of cur.new ≡ place_of cur.old + n }
{
    put_sign(cur, is_negative(y));
    put_digits(cur, 8, 48, n / 8 - 1, magnitude(y));
}

/// Writes a sign octet, decimal digits of an octet each, and a terminator behind them.
fn put_signed_ended<const N: usize>(cur: &mut WriteCursor<'_, N>, end: &Pattern, y: &i128)
    requires end { EndFits end.now }
    requires can { CanWrite (AsciiEnded end.now true) y.now }
    requires room { place_of cur.old + coding_length (AsciiEnded end.now true) y.now ≤ 8 * N }
    ensures code { Puts (CodingCode Written (AsciiEnded end.now true) false y.now) cur.old cur.new }
    ensures long { place_of cur.new ≡ place_of cur.old + coding_length (AsciiEnded end.now true) y.now }
{
    put_sign(cur, is_negative(y));
    let k = magnitude(y);
    put_digits(cur, 8, 48, digits_of(u128::from(k)), k);
    put_end(cur, end);
}

/// Writes decimal digits of an octet each, n bits together, behind the octet of a sign where there is one.
pub fn put_characters<const N: usize>(cur: &mut WriteCursor<'_, N>, n: u32, signed: bool, y: &i128)
    requires digits { CodingFits (Ascii n signed) false }
    requires can { CanWrite (Ascii n signed) y.now }
    requires room { place_of cur.old + n ≤ 8 * N }
    ensures code { Puts (CodingCode Written (Ascii n signed) false y.now) cur.old cur.new }
    ensures long { place_of cur.new ≡ place_of cur.old + n }
{
    if signed {
        put_ascii_signed(cur, n, y)
    } else {
        put_ascii(cur, n, y)
    }
}

/// Writes decimal digits of an octet each and a terminator, behind the octet of a sign where there is one.
pub fn put_characters_ended<const N: usize>(
    cur: &mut WriteCursor<'_, N>,
    end: &Pattern,
    signed: bool,
    y: &i128,
)
    requires end { EndFits end.now }
    requires can { CanWrite (AsciiEnded end.now signed) y.now }
    requires room { place_of cur.old + coding_length (AsciiEnded end.now signed) y.now ≤ 8 * N }
    ensures code { Puts (CodingCode Written (AsciiEnded end.now signed) false y.now) cur.old cur.new }
    ensures long { place_of cur.new ≡ place_of cur.old + coding_length (AsciiEnded end.now signed) y.now }
{
    if signed {
        put_signed_ended(cur, end, y)
    } else {
        put_ascii_ended(cur, end, y)
    }
}
