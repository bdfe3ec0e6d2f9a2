//! Leaves: what a number, a size or a text breaks.

ghost use Rattle.std.specs.Prelude.{◌≡◌, ℕ, List, pos, not, position};
ghost use Rattle.acn_num.specs.Ranges.{has};
ghost use Rattle.acn_grammar.specs.Faults.{why_of as why_of_reason};
ghost use Rattle.acn_grammar.specs.Grammar.{num, octets as octets_form, bits as bits_form, text as text_form};
ghost use Rattle.acn_grammar.specs.Meets.{form_breaches, first_of, where_found, size_breach, end_breach, text_breach, bad_character};
ghost use Rattle.acn_grammar.specs.View.{data_of};
ghost use Rattle.acn_step_breach.specs.Found.{why_of, found, found_at, first};

use acn_grammar::{NumLeaf, Pattern, Sizing, TextLeaf, UnfitReason, Value};
use acn_num::RangeSet;
use acn_terminators::first_end;

/// What one place of a value breaks.
#[derive(Clone, Copy)]
pub enum Breach {
    /// The number isn't permitted.
    OutOfRange { value: i128 },
    /// The size isn't permitted.
    SizeOutOfRange { n: u64 },
    /// The character at this place isn't in the alphabet.
    BadCharacter { index: u64 },
    /// The terminator occurs first at this place, and not at the end.
    TerminatorInside { index: u64 },
}

/// The breach as the reason why a value isn't one of a node's.
pub fn reason(breach: Breach) -> UnfitReason
    ensures { why_of_reason result ≡ why_of breach }
{
    match breach {
        Breach::OutOfRange { value } => UnfitReason::OutOfRange { value },
        Breach::SizeOutOfRange { n } => UnfitReason::SizeOutOfRange { n },
        Breach::BadCharacter { index } => UnfitReason::BadCharacter { index },
        Breach::TerminatorInside { index } => UnfitReason::TerminatorInside { index },
    }
}

/// Whether a size is permitted.
pub fn size_meets(sizing: &Sizing, n: usize) -> Result<(), Breach>
    ensures { found result ≡ first (size_breach sizing.now n) }
{
    let n = n as u64;
    if sizing.sizes.holds_natural(n) {
        Ok(())
    } else {
        Err(Breach::SizeOutOfRange { n })
    }
}

fn characters_meet(alphabet: &RangeSet, text: &[u8]) -> Result<(), Breach>
    ensures { found result ≡ first (where_found (position (λ c. not (has alphabet.now (pos c))) text.now) bad_character) }
{
    let mut index = 0u64;
    for c in text {
        if !alphabet.holds_natural(u64::from(*c)) {
            return Err(Breach::BadCharacter { index });
        }
        index += 1;
    }
    Ok(())
}

fn end_meets(end: &Option<Pattern>, text: &[u8]) -> Result<(), Breach>
    ensures { found result ≡ first (end_breach end.now text.now) }
{
    match end {
        Some(end) => match first_end(end, text) {
            Some(index) => Err(Breach::TerminatorInside {
                index: index as u64,
            }),
            None => Ok(()),
        },
        None => Ok(()),
    }
}

fn characters_of_text_meet(leaf: &TextLeaf, text: &[u8]) -> Result<(), Breach>
    ensures { found result ≡ first (text_breach leaf.now text.now) }
{
    size_meets(&leaf.sized, text.len())?;
    characters_meet(&leaf.alphabet, text)?;
    end_meets(&leaf.ended, text)
}

/// A number.
pub fn number_meets(leaf: &NumLeaf, v: &Value) -> Result<(), Breach>
    ensures { (path : List ℕ) → found_at path result ≡ first_of (form_breaches path (num leaf.now) (data_of v.now)) }
{
    let value = v.number();
    if leaf.set.holds(value) {
        Ok(())
    } else {
        Err(Breach::OutOfRange { value })
    }
}

/// Octets.
pub fn octets_meet(sizing: &Sizing, v: &Value) -> Result<(), Breach>
    ensures { (path : List ℕ) → found_at path result ≡ first_of (form_breaches path (octets_form sizing.now) (data_of v.now)) }
{
    match v {
        Value::Octets(octets) => size_meets(sizing, octets.items().len()),
        _ => Ok(()),
    }
}

/// Bits.
pub fn bits_meet(sizing: &Sizing, v: &Value) -> Result<(), Breach>
    ensures { (path : List ℕ) → found_at path result ≡ first_of (form_breaches path (bits_form sizing.now) (data_of v.now)) }
{
    match v {
        Value::Bits(bits) => size_meets(sizing, bits.items().len()),
        _ => Ok(()),
    }
}

/// A text.
pub fn text_meets(leaf: &TextLeaf, v: &Value) -> Result<(), Breach>
    ensures { (path : List ℕ) → found_at path result ≡ first_of (form_breaches path (text_form leaf.now) (data_of v.now)) }
{
    match v {
        Value::Text(text) => characters_of_text_meet(leaf, text.items()),
        _ => Ok(()),
    }
}
