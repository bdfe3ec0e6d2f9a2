//! Characters of seven bits, put some at once.

ghost use Rattle.std.specs.Prelude.{◌≡◌, ◌++◌, ◌≤◌, ◌<◌, ◌*◌, ◌/◌, ◌%◌, ◌^◌, ◌∷◌, [], ℕ, List, Bool, true, length};
ghost use Rattle.json.specs.Print.{escape, escape_byte};
ghost use Rattle.acn_num.specs.Bits.{number};
ghost use Rattle.acn_string_lines.specs.Letters.{AreLetters, AreCharacters, AreSevens, PutsCharacters};

use crate::letters::{GREATEST, IN_WORD, Letters, put_parts, put_some};
use crate::words::take_word;
use acn_bits::ReadCursor;
use acn_grammar::TextLeaf;
use acn_json::put;

/// The bits of a character.
const WIDTH: u32 = 7;

/// Of each octet 1, where it stands for itself in a string.
#[rattlefmt::skip]
const PLAIN: [u8; 256] = [
    0, 0, 0, 0, 0, 0, 0, 0, 0, 0, 0, 0, 0, 0, 0, 0,
    0, 0, 0, 0, 0, 0, 0, 0, 0, 0, 0, 0, 0, 0, 0, 0,
    1, 1, 0, 1, 1, 1, 1, 1, 1, 1, 1, 1, 1, 1, 1, 1,
    1, 1, 1, 1, 1, 1, 1, 1, 1, 1, 1, 1, 1, 1, 1, 1,
    1, 1, 1, 1, 1, 1, 1, 1, 1, 1, 1, 1, 1, 1, 1, 1,
    1, 1, 1, 1, 1, 1, 1, 1, 1, 1, 1, 1, 0, 1, 1, 1,
    1, 1, 1, 1, 1, 1, 1, 1, 1, 1, 1, 1, 1, 1, 1, 1,
    1, 1, 1, 1, 1, 1, 1, 1, 1, 1, 1, 1, 1, 1, 1, 1,
    0, 0, 0, 0, 0, 0, 0, 0, 0, 0, 0, 0, 0, 0, 0, 0,
    0, 0, 0, 0, 0, 0, 0, 0, 0, 0, 0, 0, 0, 0, 0, 0,
    0, 0, 0, 0, 0, 0, 0, 0, 0, 0, 0, 0, 0, 0, 0, 0,
    0, 0, 0, 0, 0, 0, 0, 0, 0, 0, 0, 0, 0, 0, 0, 0,
    0, 0, 0, 0, 0, 0, 0, 0, 0, 0, 0, 0, 0, 0, 0, 0,
    0, 0, 0, 0, 0, 0, 0, 0, 0, 0, 0, 0, 0, 0, 0, 0,
    0, 0, 0, 0, 0, 0, 0, 0, 0, 0, 0, 0, 0, 0, 0, 0,
    0, 0, 0, 0, 0, 0, 0, 0, 0, 0, 0, 0, 0, 0, 0, 0,
];

/// Whether the characters are those of seven bits, each under its own number.
pub fn are_sevens(leaf: &TextLeaf, letters: &Letters) -> bool
    ensures { result ≡ true → AreSevens letters.now leaf.now }
{
    leaf.width == WIDTH && letters.low == 0 && letters.high == GREATEST && letters.ahead == 0
}

// Whether an octet stands for itself in a string, for sure.
#[inline(always)]
fn is_plain(octet: u8) -> bool
    ensures { result ≡ true → escape_byte octet ≡ octet ∷ [] }
{
    PLAIN[octet as usize] == 1
}

// Whether four octets stand for themselves in a string, for sure.
#[inline(always)]
fn are_plain(first: u8, second: u8, third: u8, fourth: u8) -> bool
    ensures first { result ≡ true → escape_byte first ≡ first ∷ [] }
    ensures second { result ≡ true → escape_byte second ≡ second ∷ [] }
    ensures third { result ≡ true → escape_byte third ≡ third ∷ [] }
    ensures fourth { result ≡ true → escape_byte fourth ≡ fourth ∷ [] }
{
    is_plain(first) && is_plain(second) && is_plain(third) && is_plain(fourth)
}

// Seven bits of a word in front of so many that are left.
#[inline(always)]
fn seven(word: u64, left: u64) -> u8
    requires { left < 64 }
    ensures value { result ≡ word / 2 ^ left % 2 ^ 7 }
    ensures small { result ≤ 127 }
{
    ((word >> left) % 128) as u8
}

// Puts characters one by one.
#[inline(never)]
fn put_apart(word: u64, leaf: &TextLeaf, letters: &Letters, n: u64, text: &mut Vec<u8>) -> bool
    requires letters { AreLetters letters.now leaf.now }
    requires few { n ≤ 8 }
    ensures { result ≡ true → (bs : List Bool) → length bs ≡ leaf.now.width * n → word ≡ number bs → (cs : List ℕ) × AreCharacters leaf.now n cs bs × (text.new.items ≡ text.old.items ++ escape cs) }
{
    put_parts(word, leaf, letters, n, text)
}

// Puts the four characters that a word spells.
fn put_four(word: u64, leaf: &TextLeaf, letters: &Letters, text: &mut Vec<u8>) -> bool
    requires letters { AreLetters letters.now leaf.now }
    requires sevens { AreSevens letters.now leaf.now }
    ensures { result ≡ true → (bs : List Bool) → length bs ≡ leaf.now.width * 4 → word ≡ number bs → (cs : List ℕ) × AreCharacters leaf.now 4 cs bs × (text.new.items ≡ text.old.items ++ escape cs) }
{
    let first = seven(word, 21);
    let second = seven(word, 14);
    let third = seven(word, 7);
    let fourth = seven(word, 0);
    if are_plain(first, second, third, fourth) {
        put(&[first, second, third, fourth], text).is_ok()
    } else {
        put_apart(word, leaf, letters, 4, text)
    }
}

// Puts the eight characters that a word spells.
fn put_eight(word: u64, leaf: &TextLeaf, letters: &Letters, text: &mut Vec<u8>) -> bool
    requires letters { AreLetters letters.now leaf.now }
    requires sevens { AreSevens letters.now leaf.now }
    ensures { result ≡ true → (bs : List Bool) → length bs ≡ leaf.now.width * 8 → word ≡ number bs → (cs : List ℕ) × AreCharacters leaf.now 8 cs bs × (text.new.items ≡ text.old.items ++ escape cs) }
{
    let first = seven(word, 49);
    let second = seven(word, 42);
    let third = seven(word, 35);
    let fourth = seven(word, 28);
    let fifth = seven(word, 21);
    let sixth = seven(word, 14);
    let seventh = seven(word, 7);
    let eighth = seven(word, 0);
    if are_plain(first, second, third, fourth) && are_plain(fifth, sixth, seventh, eighth) {
        put(
            &[first, second, third, fourth, fifth, sixth, seventh, eighth],
            text,
        )
        .is_ok()
    } else {
        put_apart(word, leaf, letters, 8, text)
    }
}

// Puts the next four characters.
fn put_next_four(
    cur: &mut ReadCursor<'_>,
    leaf: &TextLeaf,
    letters: &Letters,
    text: &mut Vec<u8>,
) -> bool
    requires letters { AreLetters letters.now leaf.now }
    requires sevens { AreSevens letters.now leaf.now }
    requires there { leaf.now.width * 4 ≤ length cur.old.rest }
    ensures { result ≡ true → PutsCharacters leaf.now 4 text.old.items text.new.items cur.old cur.new }
{
    let word = take_word(cur, 28);
    put_four(word, leaf, letters, text)
}

// Puts the next eight characters.
fn put_next_eight(
    cur: &mut ReadCursor<'_>,
    leaf: &TextLeaf,
    letters: &Letters,
    text: &mut Vec<u8>,
) -> bool
    requires letters { AreLetters letters.now leaf.now }
    requires sevens { AreSevens letters.now leaf.now }
    requires there { leaf.now.width * 8 ≤ length cur.old.rest }
    ensures { result ≡ true → PutsCharacters leaf.now 8 text.old.items text.new.items cur.old cur.new }
{
    let word = take_word(cur, 56);
    put_eight(word, leaf, letters, text)
}

// Puts so many times eight characters.
fn put_eights(
    cur: &mut ReadCursor<'_>,
    leaf: &TextLeaf,
    letters: &Letters,
    n: u64,
    text: &mut Vec<u8>,
) -> bool
    requires letters { AreLetters letters.now leaf.now }
    requires sevens { AreSevens letters.now leaf.now }
    requires there { leaf.now.width * (8 * n) ≤ length cur.old.rest }
    ensures { result ≡ true → PutsCharacters leaf.now (8 * n) text.old.items text.new.items cur.old cur.new }
{
    for i in 0..n {
        let _at = i;
        if !put_next_eight(cur, leaf, letters, text) {
            return false;
        }
    }
    true
}

// Puts fewer than eight characters.
fn put_last(
    cur: &mut ReadCursor<'_>,
    leaf: &TextLeaf,
    letters: &Letters,
    n: u64,
    text: &mut Vec<u8>,
) -> bool
    requires letters { AreLetters letters.now leaf.now }
    requires sevens { AreSevens letters.now leaf.now }
    requires few { n < 8 }
    requires there { leaf.now.width * n ≤ length cur.old.rest }
    ensures { result ≡ true → PutsCharacters leaf.now n text.old.items text.new.items cur.old cur.new }
{
    if n < 4 {
        return put_some(cur, leaf, letters, n, text);
    }
    if !put_next_four(cur, leaf, letters, text) {
        return false;
    }
    put_some(cur, leaf, letters, n - 4, text)
}

/// Puts so many characters, which are there.
pub fn put_sevens(
    cur: &mut ReadCursor<'_>,
    leaf: &TextLeaf,
    letters: &Letters,
    n: u64,
    text: &mut Vec<u8>,
) -> bool
    requires letters { AreLetters letters.now leaf.now }
    requires sevens { AreSevens letters.now leaf.now }
    requires there { leaf.now.width * n ≤ length cur.old.rest }
    ensures { result ≡ true → PutsCharacters leaf.now n text.old.items text.new.items cur.old cur.new }
{
    if !put_eights(cur, leaf, letters, n / IN_WORD, text) {
        return false;
    }
    put_last(cur, leaf, letters, n % IN_WORD, text)
}
