//! Octets, bits and texts.

ghost use Rattle.std.specs.Prelude.{◌≡◌, ◌++◌, ◌<◌, ◌≤◌, ◌*◌, ◌/◌, ◌%◌, ℕ, Bool, List, true, IsTrue, OnOk, length, map};
ghost use Rattle.std.specs.Char.{digit_char};
ghost use Rattle.std.specs.Int.{w64, to_be_bytes};
ghost use Rattle.hex.specs.Hex.{encode_lower};
ghost use Rattle.json.specs.Print.{escape, quoted};
ghost use Rattle.acn_bits.specs.Reading.{Reads};
ghost use Rattle.acn_grammar.specs.Code.{Any};
ghost use Rattle.acn_grammar.specs.Grammar.{Grammar, octets as octets_form, bits as bits_form, text as text_form, octet_string, bit_string, characters};
ghost use Rattle.acn_grammar.specs.Leaves.{sizing_fine, text_fine};
ghost use Rattle.acn_grammar.specs.Spell.{FormPart};
ghost use Rattle.acn_json.specs.Lines.{bit_digit};
ghost use Rattle.acn_reads.specs.Decoded.{Passes};
ghost use Rattle.acn_reads.specs.Steps.{AreOctets, AreBits, Collected, RuleRead};
ghost use Rattle.acn_text.specs.Texts.{IsGiven, TextCode};
ghost use Rattle.acn_string_lines.specs.Letters.{AreLetters};

use crate::letters::{Letters, letters_of, put_string};
use crate::sizes::size;
use crate::words::take_word;
use acn_bits::ReadCursor;
use acn_grammar::{Sizing, TextLeaf};
use acn_json::{put, put_octet, put_quoted};
use acn_num::NoMemory;
use acn_reads::given_size;
use acn_text::read_text;

/// The two lower case hexadecimal digits of each octet: the first in the low octet of its number,
/// the second in the high one.
#[rattlefmt::skip]
const DIGIT_PAIRS: [u16; 256] = [
    0x3030, 0x3130, 0x3230, 0x3330, 0x3430, 0x3530, 0x3630, 0x3730,
    0x3830, 0x3930, 0x6130, 0x6230, 0x6330, 0x6430, 0x6530, 0x6630,
    0x3031, 0x3131, 0x3231, 0x3331, 0x3431, 0x3531, 0x3631, 0x3731,
    0x3831, 0x3931, 0x6131, 0x6231, 0x6331, 0x6431, 0x6531, 0x6631,
    0x3032, 0x3132, 0x3232, 0x3332, 0x3432, 0x3532, 0x3632, 0x3732,
    0x3832, 0x3932, 0x6132, 0x6232, 0x6332, 0x6432, 0x6532, 0x6632,
    0x3033, 0x3133, 0x3233, 0x3333, 0x3433, 0x3533, 0x3633, 0x3733,
    0x3833, 0x3933, 0x6133, 0x6233, 0x6333, 0x6433, 0x6533, 0x6633,
    0x3034, 0x3134, 0x3234, 0x3334, 0x3434, 0x3534, 0x3634, 0x3734,
    0x3834, 0x3934, 0x6134, 0x6234, 0x6334, 0x6434, 0x6534, 0x6634,
    0x3035, 0x3135, 0x3235, 0x3335, 0x3435, 0x3535, 0x3635, 0x3735,
    0x3835, 0x3935, 0x6135, 0x6235, 0x6335, 0x6435, 0x6535, 0x6635,
    0x3036, 0x3136, 0x3236, 0x3336, 0x3436, 0x3536, 0x3636, 0x3736,
    0x3836, 0x3936, 0x6136, 0x6236, 0x6336, 0x6436, 0x6536, 0x6636,
    0x3037, 0x3137, 0x3237, 0x3337, 0x3437, 0x3537, 0x3637, 0x3737,
    0x3837, 0x3937, 0x6137, 0x6237, 0x6337, 0x6437, 0x6537, 0x6637,
    0x3038, 0x3138, 0x3238, 0x3338, 0x3438, 0x3538, 0x3638, 0x3738,
    0x3838, 0x3938, 0x6138, 0x6238, 0x6338, 0x6438, 0x6538, 0x6638,
    0x3039, 0x3139, 0x3239, 0x3339, 0x3439, 0x3539, 0x3639, 0x3739,
    0x3839, 0x3939, 0x6139, 0x6239, 0x6339, 0x6439, 0x6539, 0x6639,
    0x3061, 0x3161, 0x3261, 0x3361, 0x3461, 0x3561, 0x3661, 0x3761,
    0x3861, 0x3961, 0x6161, 0x6261, 0x6361, 0x6461, 0x6561, 0x6661,
    0x3062, 0x3162, 0x3262, 0x3362, 0x3462, 0x3562, 0x3662, 0x3762,
    0x3862, 0x3962, 0x6162, 0x6262, 0x6362, 0x6462, 0x6562, 0x6662,
    0x3063, 0x3163, 0x3263, 0x3363, 0x3463, 0x3563, 0x3663, 0x3763,
    0x3863, 0x3963, 0x6163, 0x6263, 0x6363, 0x6463, 0x6563, 0x6663,
    0x3064, 0x3164, 0x3264, 0x3364, 0x3464, 0x3564, 0x3664, 0x3764,
    0x3864, 0x3964, 0x6164, 0x6264, 0x6364, 0x6464, 0x6564, 0x6664,
    0x3065, 0x3165, 0x3265, 0x3365, 0x3465, 0x3565, 0x3665, 0x3765,
    0x3865, 0x3965, 0x6165, 0x6265, 0x6365, 0x6465, 0x6565, 0x6665,
    0x3066, 0x3166, 0x3266, 0x3366, 0x3466, 0x3566, 0x3666, 0x3766,
    0x3866, 0x3966, 0x6166, 0x6266, 0x6366, 0x6466, 0x6566, 0x6666,
];

// The first hexadecimal digit of an octet.
#[inline(always)]
fn high_digit(octet: u8) -> u8
    ensures { result ≡ digit_char (octet / 16) }
{
    (DIGIT_PAIRS[octet as usize] % 256) as u8
}

// The second hexadecimal digit of an octet.
#[inline(always)]
fn low_digit(octet: u8) -> u8
    ensures { result ≡ digit_char (octet % 16) }
{
    (DIGIT_PAIRS[octet as usize] / 256) as u8
}

// Puts the two hexadecimal digits of the next octet, which stand for themselves in a string.
fn put_pair(cur: &mut ReadCursor<'_>, text: &mut Vec<u8>) -> Result<(), NoMemory>
    requires { 8 ≤ length cur.old.rest }
    ensures { OnOk result ((os : List ℕ) × Reads (AreOctets 1 os) cur.old cur.new × (text.new.items ≡ text.old.items ++ escape (encode_lower os))) }
{
    let octet = take_word(cur, 8) as u8;
    put(&[high_digit(octet), low_digit(octet)], text)
}

// Puts the digits of the next two octets.
fn put_two(cur: &mut ReadCursor<'_>, text: &mut Vec<u8>) -> Result<(), NoMemory>
    requires { 16 ≤ length cur.old.rest }
    ensures { OnOk result ((os : List ℕ) × Reads (AreOctets 2 os) cur.old cur.new × (text.new.items ≡ text.old.items ++ escape (encode_lower os))) }
{
    let word = take_word(cur, 16) as u16;
    let o = word.to_be_bytes();
    put(
        &[
            high_digit(o[0]),
            low_digit(o[0]),
            high_digit(o[1]),
            low_digit(o[1]),
        ],
        text,
    )
}

// Puts the digits of the next four octets.
fn put_four(cur: &mut ReadCursor<'_>, text: &mut Vec<u8>) -> Result<(), NoMemory>
    requires { 32 ≤ length cur.old.rest }
    ensures { OnOk result ((os : List ℕ) × Reads (AreOctets 4 os) cur.old cur.new × (text.new.items ≡ text.old.items ++ escape (encode_lower os))) }
{
    let word = take_word(cur, 32) as u32;
    let o = word.to_be_bytes();
    put(
        &[
            high_digit(o[0]),
            low_digit(o[0]),
            high_digit(o[1]),
            low_digit(o[1]),
            high_digit(o[2]),
            low_digit(o[2]),
            high_digit(o[3]),
            low_digit(o[3]),
        ],
        text,
    )
}

// Puts the digits of fewer than two octets, which are there.
fn put_last(cur: &mut ReadCursor<'_>, n: u64, text: &mut Vec<u8>) -> Result<(), NoMemory>
    requires few { n < 2 }
    requires there { 8 * n ≤ length cur.old.rest }
    ensures { OnOk result ((os : List ℕ) × Reads (AreOctets n os) cur.old cur.new × (text.new.items ≡ text.old.items ++ escape (encode_lower os))) }
{
    if n == 1 { put_pair(cur, text) } else { Ok(()) }
}

// Puts the digits of two or three octets, which are there.
fn put_two_first(cur: &mut ReadCursor<'_>, n: u64, text: &mut Vec<u8>) -> Result<(), NoMemory>
    requires least { 2 ≤ n }
    requires few { n < 4 }
    requires there { 8 * n ≤ length cur.old.rest }
    ensures { OnOk result ((os : List ℕ) × Reads (AreOctets n os) cur.old cur.new × (text.new.items ≡ text.old.items ++ escape (encode_lower os))) }
{
    put_two(cur, text)?;
    put_last(cur, n - 2, text)
}

// Puts the digits of fewer than four octets, which are there.
fn put_few(cur: &mut ReadCursor<'_>, n: u64, text: &mut Vec<u8>) -> Result<(), NoMemory>
    requires few { n < 4 }
    requires there { 8 * n ≤ length cur.old.rest }
    ensures { OnOk result ((os : List ℕ) × Reads (AreOctets n os) cur.old cur.new × (text.new.items ≡ text.old.items ++ escape (encode_lower os))) }
{
    if n < 2 {
        put_last(cur, n, text)
    } else {
        put_two_first(cur, n, text)
    }
}

// Puts the digits of four to seven octets, which are there.
fn put_four_first(cur: &mut ReadCursor<'_>, n: u64, text: &mut Vec<u8>) -> Result<(), NoMemory>
    requires least { 4 ≤ n }
    requires few { n < 8 }
    requires there { 8 * n ≤ length cur.old.rest }
    ensures { OnOk result ((os : List ℕ) × Reads (AreOctets n os) cur.old cur.new × (text.new.items ≡ text.old.items ++ escape (encode_lower os))) }
{
    put_four(cur, text)?;
    put_few(cur, n - 4, text)
}

// Puts the digits of fewer than eight octets, which are there.
fn put_rest(cur: &mut ReadCursor<'_>, n: u64, text: &mut Vec<u8>) -> Result<(), NoMemory>
    requires few { n < 8 }
    requires there { 8 * n ≤ length cur.old.rest }
    ensures { OnOk result ((os : List ℕ) × Reads (AreOctets n os) cur.old cur.new × (text.new.items ≡ text.old.items ++ escape (encode_lower os))) }
{
    if n < 4 {
        put_few(cur, n, text)
    } else {
        put_four_first(cur, n, text)
    }
}

// Puts the digits of the eight octets of a word.
fn put_digits(word: u64, text: &mut Vec<u8>) -> Result<(), NoMemory>
    ensures { OnOk result (text.new.items ≡ text.old.items ++ escape (encode_lower (to_be_bytes w64 word))) }
{
    let o = word.to_be_bytes();
    put(
        &[
            high_digit(o[0]),
            low_digit(o[0]),
            high_digit(o[1]),
            low_digit(o[1]),
            high_digit(o[2]),
            low_digit(o[2]),
            high_digit(o[3]),
            low_digit(o[3]),
            high_digit(o[4]),
            low_digit(o[4]),
            high_digit(o[5]),
            low_digit(o[5]),
            high_digit(o[6]),
            low_digit(o[6]),
            high_digit(o[7]),
            low_digit(o[7]),
        ],
        text,
    )
}

// Puts the digits of the next eight octets.
fn put_word(cur: &mut ReadCursor<'_>, text: &mut Vec<u8>) -> Result<(), NoMemory>
    requires { 64 ≤ length cur.old.rest }
    ensures { OnOk result ((os : List ℕ) × Reads (AreOctets 8 os) cur.old cur.new × (text.new.items ≡ text.old.items ++ escape (encode_lower os))) }
{
    let word = take_word(cur, 64);
    put_digits(word, text)
}

// Puts the digits of so many times eight octets, which are there.
fn put_words(cur: &mut ReadCursor<'_>, n: u64, text: &mut Vec<u8>) -> Result<(), NoMemory>
    requires { 8 * (8 * n) ≤ length cur.old.rest }
    ensures { OnOk result ((os : List ℕ) × Reads (AreOctets (8 * n) os) cur.old cur.new × (text.new.items ≡ text.old.items ++ escape (encode_lower os))) }
{
    for i in 0..n {
        let _at = i;
        put_word(cur, text)?;
    }
    Ok(())
}

// Puts the string of so many octets, which are there: eight at once while there are so many.
fn put_hexadecimal(cur: &mut ReadCursor<'_>, n: u64, text: &mut Vec<u8>) -> Result<(), NoMemory>
    requires { 8 * n ≤ length cur.old.rest }
    ensures { OnOk result ((os : List ℕ) × Reads (AreOctets n os) cur.old cur.new × (text.new.items ≡ text.old.items ++ quoted (encode_lower os))) }
{
    put_octet(b'"', text)?;
    put_words(cur, n / 8, text)?;
    put_rest(cur, n % 8, text)?;
    put_octet(b'"', text)
}

/// Puts an OCTET STRING, which is passed.
pub fn put_octets(
    cur: &mut ReadCursor<'_>,
    sizing: &Sizing,
    slots: &[(u32, i128)],
    text: &mut Vec<u8>,
) -> bool
    requires fine { IsTrue (sizing_fine sizing.now) }
    requires read { RuleRead sizing.now.rule slots.now }
    ensures put { result ≡ true → (os : List ℕ) × ((root : Grammar) → Passes (λ env. FormPart root Any (octets_form sizing.now) env (octet_string os)) slots.now cur.old cur.new) × (text.new.items ≡ text.old.items ++ quoted (encode_lower os)) }
{
    match size(cur, sizing, slots) {
        Some(n) => {
            if cur.left() < 8 * n {
                return false;
            }
            put_hexadecimal(cur, n, text).is_ok()
        }
        None => false,
    }
}

// Puts the digit of the next bit.
fn put_bit(cur: &mut ReadCursor<'_>, text: &mut Vec<u8>) -> Result<(), NoMemory>
    requires { 1 ≤ length cur.old.rest }
    ensures { OnOk result ((bs : List Bool) × Reads (AreBits 1 bs) cur.old cur.new × (text.new.items ≡ text.old.items ++ map bit_digit bs)) }
{
    let bit = take_word(cur, 1) as u8;
    put_octet(b'0' + bit, text)
}

// Puts the digits of so many bits, which are there.
fn put_each_bit(cur: &mut ReadCursor<'_>, n: u64, text: &mut Vec<u8>) -> Result<(), NoMemory>
    requires { n ≤ length cur.old.rest }
    ensures { OnOk result ((bs : List Bool) × Reads (AreBits n bs) cur.old cur.new × (text.new.items ≡ text.old.items ++ map bit_digit bs)) }
{
    for i in 0..n {
        let _at = i;
        put_bit(cur, text)?;
    }
    Ok(())
}

// Puts the string of so many bits, which are there.
fn put_binary(cur: &mut ReadCursor<'_>, n: u64, text: &mut Vec<u8>) -> Result<(), NoMemory>
    requires { n ≤ length cur.old.rest }
    ensures { OnOk result ((bs : List Bool) × Reads (AreBits n bs) cur.old cur.new × (text.new.items ≡ text.old.items ++ quoted (map bit_digit bs))) }
{
    put_octet(b'"', text)?;
    put_each_bit(cur, n, text)?;
    put_octet(b'"', text)
}

/// Puts a BIT STRING, which is passed.
pub fn put_bits(
    cur: &mut ReadCursor<'_>,
    sizing: &Sizing,
    slots: &[(u32, i128)],
    text: &mut Vec<u8>,
) -> bool
    requires fine { IsTrue (sizing_fine sizing.now) }
    requires read { RuleRead sizing.now.rule slots.now }
    ensures put { result ≡ true → (bs : List Bool) × ((root : Grammar) → Passes (λ env. FormPart root Any (bits_form sizing.now) env (bit_string bs)) slots.now cur.old cur.new) × (text.new.items ≡ text.old.items ++ quoted (map bit_digit bs)) }
{
    match size(cur, sizing, slots) {
        Some(n) => {
            if cur.left() < n {
                return false;
            }
            put_binary(cur, n, text).is_ok()
        }
        None => false,
    }
}

// Adds a character, and notes it where there is no memory for one.
fn collect(text: &mut Vec<u8>, lost: &mut bool, c: u8)
    ensures { Collected text.old.items lost.old c text.new.items lost.new }
{
    if text.push(c).is_err() {
        *lost = true;
    }
}

// Puts the characters of a text, which is passed.
fn put_characters(
    cur: &mut ReadCursor<'_>,
    leaf: &TextLeaf,
    given: Option<u64>,
    aside: &mut Vec<u8>,
) -> bool
    requires fine { IsTrue (text_fine leaf.now) }
    requires given { IsGiven leaf.now.sized.rule given }
    ensures { result ≡ true → (cs : List ℕ) × Reads (TextCode leaf.now given cs) cur.old cur.new × (aside.new.items ≡ aside.old.items ++ cs) }
{
    let mut lost = false;
    match read_text(cur, leaf, given, &mut |c| collect(aside, &mut lost, c)) {
        Ok(_) => !lost,
        Err(_) => false,
    }
}

// Puts any IA5String, which is passed. Its characters stand aside while they are read.
fn put_any_text(
    cur: &mut ReadCursor<'_>,
    leaf: &TextLeaf,
    slots: &[(u32, i128)],
    aside: &mut Vec<u8>,
    text: &mut Vec<u8>,
) -> bool
    requires fine { IsTrue (text_fine leaf.now) }
    requires read { RuleRead leaf.now.sized.rule slots.now }
    ensures put { result ≡ true → (cs : List ℕ) × ((root : Grammar) → Passes (λ env. FormPart root Any (text_form leaf.now) env (characters cs)) slots.now cur.old cur.new) × (text.new.items ≡ text.old.items ++ quoted cs) }
    ensures aside { result ≡ true → aside.new.items ≡ aside.old.items }
{
    match given_size(&leaf.sized, slots) {
        Ok(given) => {
            let mark = aside.len();
            if !put_characters(cur, leaf, given, aside) {
                return false;
            }
            let done = put_quoted(&aside[mark..], text).is_ok();
            aside.truncate(mark);
            done
        }
        Err(_) => false,
    }
}

// Puts an IA5String behind its size, which is passed.
#[inline(always)]
fn put_sized_text(
    cur: &mut ReadCursor<'_>,
    leaf: &TextLeaf,
    letters: &Letters,
    slots: &[(u32, i128)],
    text: &mut Vec<u8>,
) -> bool
    requires fine { IsTrue (text_fine leaf.now) }
    requires letters { AreLetters letters.now leaf.now }
    requires read { RuleRead leaf.now.sized.rule slots.now }
    ensures put { result ≡ true → (cs : List ℕ) × ((root : Grammar) → Passes (λ env. FormPart root Any (text_form leaf.now) env (characters cs)) slots.now cur.old cur.new) × (text.new.items ≡ text.old.items ++ quoted cs) }
{
    match size(cur, &leaf.sized, slots) {
        Some(n) => put_string(cur, leaf, letters, n, text),
        None => false,
    }
}

/// Puts an IA5String, which is passed.
pub fn put_text(
    cur: &mut ReadCursor<'_>,
    leaf: &TextLeaf,
    slots: &[(u32, i128)],
    aside: &mut Vec<u8>,
    text: &mut Vec<u8>,
) -> bool
    requires fine { IsTrue (text_fine leaf.now) }
    requires read { RuleRead leaf.now.sized.rule slots.now }
    ensures put { result ≡ true → (cs : List ℕ) × ((root : Grammar) → Passes (λ env. FormPart root Any (text_form leaf.now) env (characters cs)) slots.now cur.old cur.new) × (text.new.items ≡ text.old.items ++ quoted cs) }
    ensures aside { result ≡ true → aside.new.items ≡ aside.old.items }
{
    match letters_of(leaf) {
        Some(letters) => put_sized_text(cur, leaf, &letters, slots, text),
        None => put_any_text(cur, leaf, slots, aside, text),
    }
}
