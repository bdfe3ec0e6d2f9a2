ghost use Rattle.std.specs.Prelude.{◌≡◌, ◌+◌, ◌-◌, ◌*◌, ◌^◌, ◌<◌, ◌≤◌, ◌%◌, ◌++◌, IfSome, IsTrue, None, length, []};
ghost use Rattle.acn_num.specs.Bits.{low_bits, number};
ghost use Rattle.acn_bits.specs.Writing.{place_of, Writes, Puts};
ghost use Rattle.acn_grammar.specs.Leaves.{text_fine};
ghost use Rattle.acn_grammar.specs.Length.{text_length, rule_width};
ghost use Rattle.acn_grammar.specs.Meets.{text_breach};
ghost use Rattle.acn_text.specs.Texts.{TextCode, given_size};
ghost use Rattle.acn_text.specs.Steps.{SizeFits, NumbersFit, size_bits, character_bits};
ghost use Rattle.acn_text.specs.declared.writer.TheConstants.{CHARACTERS_AT_ONCE, NARROW_SIZE};

use crate::alphabet::number_of;
use acn_bits::WriteCursor;
use acn_grammar::{Pattern, SizeRule, TextLeaf};
use acn_ints::pattern_number;

/// So many characters are written at once: each has at most eight bits, so their bits fit a word.
const CHARACTERS_AT_ONCE: usize = 8;

/// A size in front of so few bits is written with the first characters, by one word.
const NARROW_SIZE: u32 = 8;

/// The bits of a size in front and its number, where they are few.
fn narrow_size(rule: &SizeRule, n: u64) -> Option<(u32, u64)>
    requires { SizeFits rule.now n }
    ensures { IfSome result (λ size. (rule_width rule.now ≡ size.0) × (size_bits rule.now n ≡ low_bits size.0 size.1) × (size.0 ≤ NARROW_SIZE) × (size.1 < 2 ^ size.0)) }
{
    match rule {
        SizeRule::Prefix { low, width } => {
            if *width <= NARROW_SIZE {
                Some((*width, n - *low))
            } else {
                None
            }
        }
        SizeRule::Slot(_) => None,
        SizeRule::Ended(_) => None,
    }
}

/// Writes the size in front, which has no bits where a slot says it.
fn put_size<const N: usize>(cur: &mut WriteCursor<'_, N>, rule: &SizeRule, n: u64)
    requires fits { SizeFits rule.now n }
    requires room { place_of cur.old + rule_width rule.now ≤ 8 * N }
    ensures { Writes cur.old cur.new (place_of cur.old) (size_bits rule.now n) (place_of cur.old + rule_width rule.now) }
{
    match rule {
        SizeRule::Prefix { low, width } => cur.put(*width, n - *low),
        SizeRule::Slot(_) => cur.put(0, 0),
        SizeRule::Ended(_) => cur.put(0, 0),
    }
}

/// The number that the bits of characters spell, of as many as a word has room for.
fn number_of_all(leaf: &TextLeaf, characters: &[u8]) -> u64
    requires fine { IsTrue (text_fine leaf.now) }
    requires width { leaf.now.width ≤ 8 }
    requires few { length characters.now ≤ CHARACTERS_AT_ONCE }
    requires fit { NumbersFit leaf.now characters.now }
    ensures { result ≡ number (character_bits leaf.now characters.now) }
{
    let mut all = 0u64;
    for c in characters {
        all = (all << leaf.width) | number_of(leaf, *c);
    }
    all
}

/// Writes a number of few bits and less than a word of characters behind it, as one word.
fn put_first<const N: usize>(
    cur: &mut WriteCursor<'_, N>,
    leaf: &TextLeaf,
    size: (u32, u64),
    front: &[u8],
)
    requires fine { IsTrue (text_fine leaf.now) }
    requires width { leaf.now.width ≤ 8 }
    requires few { length front.now < CHARACTERS_AT_ONCE }
    requires fit { NumbersFit leaf.now front.now }
    requires narrow { size.0 ≤ NARROW_SIZE }
    requires small { size.1 < 2 ^ size.0 }
    requires room { place_of cur.old + (size.0 + leaf.now.width * length front.now) ≤ 8 * N }
    ensures { Writes cur.old cur.new (place_of cur.old) (low_bits size.0 size.1 ++ character_bits leaf.now front.now) (place_of cur.old + (size.0 + leaf.now.width * length front.now)) }
{
    let long = leaf.width * front.len() as u32;
    let word = number_of_all(leaf, front);
    cur.put(size.0 + long, (size.1 << long) | word);
}

/// Writes characters, as many as make whole words.
fn put_words<const N: usize>(cur: &mut WriteCursor<'_, N>, leaf: &TextLeaf, text: &[u8])
    requires fine { IsTrue (text_fine leaf.now) }
    requires width { leaf.now.width ≤ 8 }
    requires whole { length text.now % CHARACTERS_AT_ONCE ≡ 0 }
    requires fit { NumbersFit leaf.now text.now }
    requires room { place_of cur.old + leaf.now.width * length text.now ≤ 8 * N }
    ensures { Writes cur.old cur.new (place_of cur.old) (character_bits leaf.now text.now) (place_of cur.old + leaf.now.width * length text.now) }
{
    cur.put(0, 0);
    for i in 0..text.len() / CHARACTERS_AT_ONCE {
        let at = CHARACTERS_AT_ONCE * i;
        let word = number_of_all(leaf, &text[at..at + CHARACTERS_AT_ONCE]);
        cur.put(leaf.width * CHARACTERS_AT_ONCE as u32, word);
    }
}

/// Writes a number of few bits and characters behind it.
fn put_characters<const N: usize>(
    cur: &mut WriteCursor<'_, N>,
    leaf: &TextLeaf,
    size: (u32, u64),
    text: &[u8],
)
    requires fine { IsTrue (text_fine leaf.now) }
    requires width { leaf.now.width ≤ 8 }
    requires fit { NumbersFit leaf.now text.now }
    requires narrow { size.0 ≤ NARROW_SIZE }
    requires small { size.1 < 2 ^ size.0 }
    requires room { place_of cur.old + (size.0 + leaf.now.width * length text.now) ≤ 8 * N }
    ensures { Writes cur.old cur.new (place_of cur.old) (low_bits size.0 size.1 ++ character_bits leaf.now text.now) (place_of cur.old + (size.0 + leaf.now.width * length text.now)) }
{
    let front = text.len() % CHARACTERS_AT_ONCE;
    put_first(cur, leaf, size, &text[..front]);
    put_words(cur, leaf, &text[front..]);
}

/// Writes a text behind its size.
fn put_sized<const N: usize>(cur: &mut WriteCursor<'_, N>, leaf: &TextLeaf, text: &[u8])
    requires fine { IsTrue (text_fine leaf.now) }
    requires sized { leaf.now.ended ≡ None }
    requires meets { text_breach leaf.now text.now ≡ [] }
    requires room { place_of cur.old + (rule_width leaf.now.sized.rule + leaf.now.width * length text.now) ≤ 8 * N }
    ensures { Writes cur.old cur.new (place_of cur.old) (size_bits leaf.now.sized.rule (length text.now) ++ character_bits leaf.now text.now) (place_of cur.old + (rule_width leaf.now.sized.rule + leaf.now.width * length text.now)) }
{
    match narrow_size(&leaf.sized.rule, text.len() as u64) {
        Some(size) => put_characters(cur, leaf, size, text),
        None => {
            put_size(cur, &leaf.sized.rule, text.len() as u64);
            put_characters(cur, leaf, (0, 0), text);
        }
    }
}

/// Writes the end.
fn put_end<const N: usize>(cur: &mut WriteCursor<'_, N>, end: &Pattern)
    requires room { place_of cur.old + length end.now ≤ 8 * N }
    ensures { Writes cur.old cur.new (place_of cur.old) end.now (place_of cur.old + length end.now) }
{
    cur.put(end.bits().len() as u32, pattern_number(end.bits()));
}

/// Writes the code of a text in the next bits, and changes no others. It takes no memory.
pub fn put_text<const N: usize>(cur: &mut WriteCursor<'_, N>, leaf: &TextLeaf, text: &[u8])
    requires fine { IsTrue (text_fine leaf.now) }
    requires meets { text_breach leaf.now text.now ≡ [] }
    requires room { place_of cur.old + text_length leaf.now.ended leaf.now (length text.now) ≤ 8 * N }
    ensures code { Puts (TextCode leaf.now (given_size leaf.now.sized.rule (length text.now)) text.now) cur.old cur.new }
    ensures long { place_of cur.new ≡ place_of cur.old + text_length leaf.now.ended leaf.now (length text.now) }
{
    match &leaf.ended {
        None => put_sized(cur, leaf, text),
        Some(end) => {
            put_characters(cur, leaf, (0, 0), text);
            put_end(cur, end);
        }
    }
}
