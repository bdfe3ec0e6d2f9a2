//! What the table of open slots answers to what is asked of one slot.

ghost use Rattle.std.specs.Prelude.{◌≡◌, ◌∷◌, [], ℤ};
ghost use Rattle.acn_num.specs.Ranges.{In};
ghost use Rattle.acn_fill.specs.Table.{frames};
ghost use Rattle.acn_leaf_cases.specs.declared.asks.TheConstants.{SLOT};

use crate::heard::heard_alone;
use crate::said::say_conflict;
use acn_bits::WriteCursor;
use acn_case_lines::{number, of_word, set_of, word};
use acn_fill::{Conflict, Fills, MOST_AVOIDED};
use acn_num::{NoMemory, RangeSet};
use std::alloc::Global;

/// A table with room for one slot.
type OneSlot<'p> = Fills<'p, 1, MOST_AVOIDED>;

// The slot that is begun.
const SLOT: u32 = 0;

fn say(answer: Result<(), Conflict>, said: &mut String) -> Result<(), NoMemory> {
    match answer {
        Ok(()) => Ok(said.push_str("Ok")?),
        Err(conflict) => say_conflict(conflict, said),
    }
}

// Asks what a word says, `=N` or `!=N`, and says what it is answered.
#[tactic(auto, using(crate::proofs::OneSlot::one_begun, crate::proofs::OneSlot::same_slots, crate::proofs::OneSlot::same_holes))]
fn ask(fills: &mut OneSlot<'_>, word: &str, said: &mut String) -> Result<(), NoMemory>
    requires begun { frames fills.old.spots ≡ SLOT ∷ [] }
    ensures slots { frames fills.new.spots ≡ frames fills.old.spots }
    ensures holes { fills.new.gaps ≡ fills.old.gaps }
{
    if let Some(number) = word.strip_prefix("=") {
        let answer = fills.equal(SLOT, of_word(number));
        return say(answer, said);
    }
    let number = of_word(word.strip_prefix("!=").unwrap_or(word));
    if !fills.can_avoid(SLOT, number) {
        return Ok(said.push_str("full")?);
    }
    let answer = fills.avoid(SLOT, number);
    say(answer, said)
}

// Asks what each word says, whatever those before it were answered.
fn ask_all(fills: &mut OneSlot<'_>, words: &[&str], said: &mut String) -> Result<(), NoMemory>
    requires begun { frames fills.old.spots ≡ SLOT ∷ [] }
    ensures slots { frames fills.new.spots ≡ frames fills.old.spots }
    ensures holes { fills.new.gaps ≡ fills.old.gaps }
{
    for word in words {
        ask(fills, *word, said)?;
        said.push_str(", ")?;
    }
    Ok(())
}

// What a slot with a hole is answered, and the number that fills it.
#[tactic(auto, using(crate::proofs::OneSlot::one_begun, crate::proofs::OneSlot::hole_there, crate::proofs::OneSlot::same_hole, crate::proofs::OneSlot::none_begun))]
fn ask_of_hole(alloc: Global, set: &RangeSet, words: &[&str]) -> Result<String, NoMemory>
    requires { (x : ℤ) × In set.now x }
{
    let mut said = String::new(alloc);
    let mut octets = [0u8; 8];
    let mut out = WriteCursor::new(&mut octets);
    let hole = out.hole(64);
    let mut fills: OneSlot<'_> = Fills::new();
    fills.begin(SLOT, set, hole);
    let asked = ask_all(&mut fills, words, &mut said);
    let (hole, least) = fills.finish(SLOT);
    fills.close();
    out.fill(hole, u64::try_from(least).unwrap_or(0));
    asked?;
    write!(said, "{least}")?;
    Ok(said)
}

/// What a slot is answered whose number is the first word, where the words behind it ask.
#[tactic(auto, using(crate::proofs::OneSlot::one_begun, crate::proofs::OneSlot::one_gap, crate::proofs::OneSlot::none_begun))]
pub fn asks_fixed(alloc: Global, words: &[&str]) -> Result<String, NoMemory> {
    let mut said = String::new(alloc);
    let mut fills: OneSlot<'_> = Fills::new();
    fills.begin_fixed(SLOT, number(words, 0));
    let asked = ask_all(&mut fills, words.get(1..).unwrap_or(&[]), &mut said);
    fills.finish_fixed(SLOT);
    fills.close();
    asked?;
    said.push_str("fixed")?;
    Ok(said)
}

// What a slot with a hole is answered by the table, and where it differs by what is heard of a field.
fn asks_of_both(alloc: Global, set: &RangeSet, words: &[&str]) -> Result<String, NoMemory>
    requires { (x : ℤ) × In set.now x }
{
    let table = ask_of_hole(alloc, set, words)?;
    let heard = heard_alone(alloc, set, words)?;
    if table.as_str() == heard.as_str() {
        return Ok(table);
    }
    Ok(format!(in alloc; "{table}; heard {heard}")?)
}

/// What a slot is answered whose numbers are the set of the first word, where the words behind it ask.
pub fn asks(alloc: Global, words: &[&str]) -> Result<String, NoMemory> {
    let Some(set) = set_of(alloc, word(words, 0))? else {
        return Ok("not understood".to_string(alloc)?);
    };
    match set.least() {
        Some(_) => asks_of_both(alloc, &set, words.get(1..).unwrap_or(&[])),
        None => Ok("no numbers".to_string(alloc)?),
    }
}
