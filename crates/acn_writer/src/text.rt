//! Whether a text meets its leaf, and how long it is then.

ghost use Rattle.std.specs.Prelude.{◌≡◌, ◌≤◌, ◌<◌, ◌^◌, ◌&&◌, [], ℕ, None, true, false, IfSome, IsTrue, length, nat_le, not, pos, position, take};
ghost use Rattle.std.specs.List.{list_all};
ghost use Rattle.acn_num.specs.Ranges.{has};
ghost use Rattle.acn_grammar.specs.Leaves.{text_fine};
ghost use Rattle.acn_grammar.specs.Length.{text_length};
ghost use Rattle.acn_grammar.specs.Meets.{end_breach, text_breach};

use acn_grammar::{Pattern, SizeRule, TextLeaf};
use acn_num::RangeSet;
use acn_terminators::first_end;

// The first place of a text with no character of the alphabet.
fn first_wrong(alphabet: &RangeSet, text: &[u8]) -> Option<usize>
    ensures { result ≡ position (λ c. not (has alphabet.now (pos c))) text.now }
{
    text.iter().position(|c| !alphabet.holds(i128::from(*c)))
}

// The ends of a range as octets, where they are octets.
fn octet_ends(range: &(i128, i128)) -> Option<(u8, u8)>
    ensures { IfSome result (λ ends. (range.now.0 ≡ pos ends.0) × (range.now.1 ≡ pos ends.1)) }
{
    match u8::try_from(range.0) {
        Ok(low) => match u8::try_from(range.1) {
            Ok(high) => Some((low, high)),
            Err(_) => None,
        },
        Err(_) => None,
    }
}

// The octets between which all characters are of the alphabet: the ends of its first range.
fn first_ends(alphabet: &RangeSet) -> Option<(u8, u8)>
    ensures { IfSome result (λ ends. (c : ℕ) → (nat_le ends.0 c && nat_le c ends.1) ≡ true → has alphabet.now (pos c) ≡ true) }
{
    match alphabet.ranges().first() {
        Some(range) => octet_ends(range),
        None => None,
    }
}

// Whether the first four octets are at most 127.
#[inline(always)]
fn four_are_low(text: &[u8]) -> bool
    requires { 4 ≤ length text.now }
    ensures { result ≡ true → list_all (λ c. nat_le c 127) (take 4 text.now) ≡ true }
{
    match text.first_chunk::<4>() {
        Some(octets) => u32::from_be_bytes(*octets) & 0x8080_8080 == 0,
        None => unreachable!(),
    }
}

// Whether the first eight octets are at most 127.
#[inline(always)]
fn eight_are_low(text: &[u8]) -> bool
    requires { 8 ≤ length text.now }
    ensures { result ≡ true → list_all (λ c. nat_le c 127) (take 8 text.now) ≡ true }
{
    match text.first_chunk::<8>() {
        Some(octets) => u64::from_be_bytes(*octets) & 0x8080_8080_8080_8080 == 0,
        None => unreachable!(),
    }
}

// Whether all characters of a text are at most 127, for sure. Most texts are as long as two words
// or less, which may overlap: of these no character is looked at by itself.
#[inline(always)]
fn are_low(text: &[u8]) -> bool
    ensures { result ≡ true → list_all (λ c. nat_le c 127) text.now ≡ true }
{
    let size = text.len();
    if size < 4 || 16 < size {
        return false;
    }
    if size < 8 {
        four_are_low(text) && four_are_low(&text[size - 4..])
    } else {
        eight_are_low(text) && eight_are_low(&text[size - 8..])
    }
}

// Whether all characters of a text lie between two.
fn lie_between(text: &[u8], low: u8, high: u8) -> bool
    ensures { result ≡ list_all (λ c. nat_le low c && nat_le c high) text.now }
{
    if low == 0 && high == 127 && are_low(text) {
        return true;
    }
    text.iter().all(|c| low <= *c && *c <= high)
}

// Whether all characters of a text are of the first range of the alphabet.
fn lie_in_first(alphabet: &RangeSet, text: &[u8]) -> bool
    ensures { result ≡ true → position (λ c. not (has alphabet.now (pos c))) text.now ≡ None }
{
    match first_ends(alphabet) {
        Some((low, high)) => lie_between(text, low, high),
        None => false,
    }
}

// Whether all characters of a text are of the alphabet.
fn are_permitted(alphabet: &RangeSet, text: &[u8]) -> bool
    ensures yes { result ≡ true → position (λ c. not (has alphabet.now (pos c))) text.now ≡ None }
    ensures no { result ≡ false → position (λ c. not (has alphabet.now (pos c))) text.now ≡ None → ⊥ }
{
    if lie_in_first(alphabet, text) {
        return true;
    }
    match first_wrong(alphabet, text) {
        Some(_) => false,
        None => true,
    }
}

// Whether the terminator doesn't occur in the text followed by it.
fn ends_once(end: &Option<Pattern>, text: &[u8]) -> bool
    ensures yes { result ≡ true → end_breach end.now text.now ≡ [] }
    ensures no { result ≡ false → end_breach end.now text.now ≡ [] → ⊥ }
{
    match end {
        Some(end) => match first_end(end, text) {
            Some(_) => false,
            None => true,
        },
        None => true,
    }
}

/// Whether a text meets its leaf.
pub fn meets(leaf: &TextLeaf, text: &[u8]) -> bool
    ensures yes { result ≡ true → text_breach leaf.now text.now ≡ [] }
    ensures no { result ≡ false → text_breach leaf.now text.now ≡ [] → ⊥ }
{
    if !leaf.sized.sizes.holds_natural(text.len() as u64) {
        return false;
    }
    are_permitted(&leaf.alphabet, text) && ends_once(&leaf.ended, text)
}

/// How many bits a text that meets its leaf has.
pub fn text_bits(leaf: &TextLeaf, text: &[u8]) -> u64
    requires fine { IsTrue (text_fine leaf.now) }
    requires meets { text_breach leaf.now text.now ≡ [] }
    ensures { result ≡ text_length leaf.now.ended leaf.now (length text.now) }
{
    let characters = u64::from(leaf.width) * text.len() as u64;
    match &leaf.ended {
        Some(end) => characters + end.bits().len() as u64,
        None => match &leaf.sized.rule {
            SizeRule::Prefix { low: _, width } => u64::from(*width) + characters,
            SizeRule::Slot(_) => characters,
            SizeRule::Ended(_) => characters,
        },
    }
}
