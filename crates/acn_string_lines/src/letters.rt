//! Texts whose characters are read out of words.

ghost use Rattle.std.specs.Prelude.{◌≡◌, ◌++◌, ◌<◌, ◌≤◌, ◌*◌, ◌+◌, ◌/◌, ◌%◌, ◌^◌, ◌∷◌, [], ℕ, List, Bool, pos, true, IsTrue, IfSome, OnOk, length, if◌then◌else◌};
ghost use Rattle.json.specs.Print.{escape, escape_byte, escape_letter, quoted};
ghost use Rattle.acn_num.specs.Bits.{number};
ghost use Rattle.acn_bits.specs.Reading.{Reads};
ghost use Rattle.acn_grammar.specs.Leaves.{text_fine};
ghost use Rattle.acn_num.specs.declared.limits.TheConstants.{MOST_SIZE};
ghost use Rattle.acn_string_lines.specs.Letters.{AreLetters, AreCharacters, PutsCharacters};
ghost use Rattle.acn_string_lines.specs.declared.letters.TheConstants.{IN_WORD};

use crate::sevens::{are_sevens, put_sevens};
use crate::words::take_word;
use acn_bits::ReadCursor;
use acn_grammar::TextLeaf;
use acn_json::{digit, put, put_octet};
use acn_num::NoMemory;

/// How many characters are read out of one word: each has at most eight bits.
pub const IN_WORD: u64 = 8;

/// The greatest character of an IA5String.
pub const GREATEST: u64 = 127;

/// The characters of an alphabet of one range: the least and the greatest, and how far each is
/// ahead of its number.
#[derive(Clone, Copy)]
pub struct Letters {
    pub low: u64,
    pub high: u64,
    pub ahead: u64,
}

// The one range of a set that has one.
fn only(ranges: &[(i128, i128)]) -> Option<&(i128, i128)>
    ensures { IfSome result (λ range. ranges.now ≡ range.now ∷ []) }
{
    match ranges {
        [range] => Some(range),
        _ => None,
    }
}

/// A number that isn't below zero.
pub fn natural(x: &i128) -> Option<u64>
    ensures { IfSome result (λ n. x.now ≡ pos n) }
{
    match u64::try_from(*x) {
        Ok(n) => Some(n),
        Err(_) => None,
    }
}

// The characters between two.
fn between(low: &i128, high: &i128, indexed: bool) -> Option<Letters>
    ensures ends { IfSome result (λ l. (low.now ≡ pos l.low) × (high.now ≡ pos l.high)) }
    ensures few { IfSome result (λ l. (l.high ≤ 127) × (l.ahead ≤ 127)) }
    ensures ahead { IfSome result (λ l. l.ahead ≡ (if indexed then l.low else 0)) }
{
    let low = natural(low)?;
    let high = natural(high)?;
    if low > GREATEST || high > GREATEST {
        return None;
    }
    let ahead = if indexed { low } else { 0 };
    Some(Letters { low, high, ahead })
}

/// The characters of a text with a size whose alphabet is one range.
pub fn letters_of(leaf: &TextLeaf) -> Option<Letters>
    requires { IsTrue (text_fine leaf.now) }
    ensures { IfSome result (λ letters. AreLetters letters leaf.now) }
{
    if leaf.ended.is_some() {
        return None;
    }
    let range = only(leaf.alphabet.ranges())?;
    between(&range.0, &range.1, leaf.indexed)
}

// The letter of an octet's short escape, or 0 where it has none.
fn letter(octet: u8) -> u8
    ensures { result ≡ escape_letter octet }
{
    match octet {
        b'"' | b'\\' => octet,
        0x08 => b'b',
        0x0c => b'f',
        b'\n' => b'n',
        b'\r' => b'r',
        b'\t' => b't',
        _ => 0,
    }
}

// Puts a character, which may not stand for itself in a string.
#[tactic(auto, unfolding(json::specs::Print::escape_byte))]
#[inline(never)]
fn put_escape(octet: u8, text: &mut Vec<u8>) -> Result<(), NoMemory>
    ensures { OnOk result (text.new.items ≡ text.old.items ++ escape_byte octet) }
{
    let letter = letter(octet);
    if 0 < letter {
        put(&[b'\\', letter], text)
    } else if octet < 0x20 {
        put(
            &[
                b'\\',
                b'u',
                b'0',
                b'0',
                digit(octet / 16),
                digit(octet % 16),
            ],
            text,
        )
    } else {
        put_octet(octet, text)
    }
}

// Puts a character.
#[inline(always)]
fn put_character(octet: u8, text: &mut Vec<u8>) -> Result<(), NoMemory>
    ensures { OnOk result (text.new.items ≡ text.old.items ++ escape_byte octet) }
{
    if octet > 0x1f && octet != b'"' && octet != b'\\' {
        put_octet(octet, text)
    } else {
        put_escape(octet, text)
    }
}

// Puts the character of a number, where it has one.
#[inline(always)]
fn put_letter(letters: &Letters, number: u64, text: &mut Vec<u8>) -> bool
    requires small { number < 256 }
    requires few { letters.now.high ≤ 127 }
    requires near { letters.now.ahead ≤ 127 }
    ensures { result ≡ true → (letters.now.low ≤ number + letters.now.ahead) × (number + letters.now.ahead ≤ letters.now.high) × (text.new.items ≡ text.old.items ++ escape_byte (number + letters.now.ahead)) }
{
    let character = number + letters.ahead;
    if character < letters.low || letters.high < character {
        return false;
    }
    put_character(character as u8, text).is_ok()
}

// The bits of a word in front of so many that are left.
#[inline(always)]
fn part(word: u64, left: u64, width: u32) -> u64
    requires left { left < 64 }
    requires width { width ≤ 8 }
    ensures value { result ≡ word / 2 ^ left % 2 ^ width }
    ensures small { result < 256 }
{
    (word >> left) % (1u64 << width)
}

/// Puts the characters whose numbers a word spells.
#[inline(always)]
pub fn put_parts(word: u64, leaf: &TextLeaf, letters: &Letters, n: u64, text: &mut Vec<u8>) -> bool
    requires letters { AreLetters letters.now leaf.now }
    requires few { n ≤ IN_WORD }
    ensures { result ≡ true → (bs : List Bool) → length bs ≡ leaf.now.width * n → word ≡ number bs → (cs : List ℕ) × AreCharacters leaf.now n cs bs × (text.new.items ≡ text.old.items ++ escape cs) }
{
    let width = leaf.width;
    for i in 0..n {
        let number = part(word, u64::from(width) * (n - 1 - i), width);
        if !put_letter(letters, number, text) {
            return false;
        }
    }
    true
}

/// Puts the next characters, at most as many as a word has.
#[inline(always)]
pub fn put_some(
    cur: &mut ReadCursor<'_>,
    leaf: &TextLeaf,
    letters: &Letters,
    n: u64,
    text: &mut Vec<u8>,
) -> bool
    requires letters { AreLetters letters.now leaf.now }
    requires few { n ≤ IN_WORD }
    requires there { leaf.now.width * n ≤ length cur.old.rest }
    ensures { result ≡ true → PutsCharacters leaf.now n text.old.items text.new.items cur.old cur.new }
{
    let word = take_word(cur, leaf.width * n as u32);
    put_parts(word, leaf, letters, n, text)
}

// Puts the characters of so many words, which are there.
#[inline(always)]
fn put_full(
    cur: &mut ReadCursor<'_>,
    leaf: &TextLeaf,
    letters: &Letters,
    n: u64,
    text: &mut Vec<u8>,
) -> bool
    requires letters { AreLetters letters.now leaf.now }
    requires there { leaf.now.width * (8 * n) ≤ length cur.old.rest }
    ensures { result ≡ true → PutsCharacters leaf.now (8 * n) text.old.items text.new.items cur.old cur.new }
{
    for i in 0..n {
        let _at = i;
        if !put_some(cur, leaf, letters, IN_WORD, text) {
            return false;
        }
    }
    true
}

// Puts so many characters, which are there, word by word.
fn put_any_letters(
    cur: &mut ReadCursor<'_>,
    leaf: &TextLeaf,
    letters: &Letters,
    n: u64,
    text: &mut Vec<u8>,
) -> bool
    requires letters { AreLetters letters.now leaf.now }
    requires there { leaf.now.width * n ≤ length cur.old.rest }
    ensures { result ≡ true → PutsCharacters leaf.now n text.old.items text.new.items cur.old cur.new }
{
    if !put_full(cur, leaf, letters, n / IN_WORD, text) {
        return false;
    }
    put_some(cur, leaf, letters, n % IN_WORD, text)
}

// Puts so many characters, which are there.
fn put_letters(
    cur: &mut ReadCursor<'_>,
    leaf: &TextLeaf,
    letters: &Letters,
    n: u64,
    text: &mut Vec<u8>,
) -> bool
    requires letters { AreLetters letters.now leaf.now }
    requires there { leaf.now.width * n ≤ length cur.old.rest }
    ensures { result ≡ true → PutsCharacters leaf.now n text.old.items text.new.items cur.old cur.new }
{
    if are_sevens(leaf, letters) {
        put_sevens(cur, leaf, letters, n, text)
    } else {
        put_any_letters(cur, leaf, letters, n, text)
    }
}

/// Puts the string of so many characters, which are passed.
pub fn put_string(
    cur: &mut ReadCursor<'_>,
    leaf: &TextLeaf,
    letters: &Letters,
    n: u64,
    text: &mut Vec<u8>,
) -> bool
    requires letters { AreLetters letters.now leaf.now }
    requires few { n ≤ MOST_SIZE }
    ensures { result ≡ true → (cs : List ℕ) × Reads (AreCharacters leaf.now n cs) cur.old cur.new × (text.new.items ≡ text.old.items ++ quoted cs) }
{
    if cur.left() < u64::from(leaf.width) * n || put_octet(b'"', text).is_err() {
        return false;
    }
    if !put_letters(cur, leaf, letters, n, text) {
        return false;
    }
    put_octet(b'"', text).is_ok()
}
