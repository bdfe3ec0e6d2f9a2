//! Values that are drawn, written, and read again.

ghost use Rattle.std.specs.Prelude.{◌≡◌};
ghost use Rattle.acn_grammar.specs.Interval.{span};
ghost use Rattle.acn_grammar.specs.ItemsNamed.{ItemsNamed};
ghost use Rattle.acn_grammar.specs.View.{grammar_of};
ghost use Rattle.acn_plan.specs.Steps.{steps_of};

use crate::packed::packed;
use acn_case_lines::bits_in_words;
use acn_case_trees::{unfit_in_words, value_in_words};
use acn_check::Checked;
use acn_num::{BitList, Boxed, NoMemory};
use acn_plain::{PlainFault, plain_decode, plain_encode};
use acn_plan::{Plan, compile};
use acn_reads::MOST_BYTES;
use acn_tree::{Draw, Refuse, Value, items_named, make, shaped};
use acn_unpack::{skim, unpack};
use std::alloc::Global;

/// What became of a drawn value.
enum Outcome {
    /// It was written alike by both writers, and read again as itself, with as many bits.
    ReadAgain,
    /// It is refused alike.
    Refused,
    /// It was read as something else, or not at all, or the writers differ.
    Lost,
}

// The octets of the bits, the last one filled with ones, with an octet of ones behind them.
fn filled_octets(alloc: Global, list: &BitList) -> Result<Vec<u8>, NoMemory> {
    let mut octets = Vec::new(alloc);
    let mut octet = 0xffu8;
    for at in 0..list.len() {
        if list.get(at) == Some(false) {
            octet ^= 128u8 >> (at % 8) as u32;
        }
        if at % 8 == 7 {
            octets.push(octet)?;
            octet = 0xff;
        }
    }
    octets.push(octet)?;
    octets.push(0xff)?;
    Ok(octets)
}

// Whether it is the value, of so many bits.
fn is_read(
    alloc: Global,
    read: Result<(Value, u64), Refuse>,
    value: &Value,
    length: usize,
) -> Result<bool, NoMemory> {
    match read {
        Ok((read, bits)) => {
            let words = value_in_words(alloc, &read)?;
            let wanted = value_in_words(alloc, value)?;
            Ok(bits == length as u64 && words.as_str() == wanted.as_str())
        }
        Err(Refuse::Bad(_)) => Ok(false),
        Err(Refuse::NoMemory) => Err(NoMemory),
    }
}

// Whether the octets begin with the value, of so many bits, by each of the three readers.
fn begin_with(
    alloc: Global,
    checked: &Checked,
    plan: &Plan,
    octets: &[u8],
    value: &Value,
    length: usize,
) -> Result<bool, NoMemory>
    requires { ItemsNamed (grammar_of checked.now.tree.root) }
{
    if octets.len() > MOST_BYTES {
        return Ok(false);
    }
    if skim(plan, octets).ok() != Some(length as u64) {
        return Ok(false);
    }
    if !is_read(alloc, plain_decode(alloc, checked, octets), value, length)? {
        return Ok(false);
    }
    is_read(alloc, unpack(alloc, plan, octets), value, length)
}

// What became of a value that is written as this list, and packed as these words say.
fn outcome_of_written(
    alloc: Global,
    checked: &Checked,
    plan: &Plan,
    value: &Value,
    list: &BitList,
    packed: &str,
) -> Result<Outcome, NoMemory>
    requires { ItemsNamed (grammar_of checked.now.tree.root) }
{
    let words = bits_in_words(alloc, list)?;
    if words.as_str() != packed {
        return Ok(Outcome::Lost);
    }
    let octets = filled_octets(alloc, list)?;
    if begin_with(alloc, checked, plan, octets.as_slice(), value, list.len())? {
        Ok(Outcome::ReadAgain)
    } else {
        Ok(Outcome::Lost)
    }
}

fn outcome_of(
    alloc: Global,
    checked: &Checked,
    plan: &Plan,
    value: &Value,
) -> Result<Outcome, NoMemory>
    requires named { ItemsNamed (grammar_of checked.now.tree.root) }
    requires planned { plan.now.steps ≡ steps_of (grammar_of checked.now.tree.root) }
    requires bounds { plan.now.bounds ≡ span (grammar_of checked.now.tree.root) }
{
    if !shaped(checked.tree().root(), value) {
        return Ok(Outcome::Lost);
    }
    let words = packed(alloc, checked, plan, value)?;
    match plain_encode(alloc, checked, value) {
        Ok(list) => outcome_of_written(alloc, checked, plan, value, &list, words.as_str()),
        Err(PlainFault::Unfit(unfit)) => {
            let wanted = unfit_in_words(alloc, &unfit)?;
            if wanted.as_str() == words.as_str() {
                Ok(Outcome::Refused)
            } else {
                Ok(Outcome::Lost)
            }
        }
        Err(PlainFault::NoMemory) => Err(NoMemory),
    }
}

fn next_outcome(
    alloc: Global,
    checked: &Checked,
    plan: &Plan,
    draw: &mut Draw,
) -> Result<Outcome, NoMemory>
    requires named { ItemsNamed (grammar_of checked.now.tree.root) }
    requires planned { plan.now.steps ≡ steps_of (grammar_of checked.now.tree.root) }
    requires bounds { plan.now.bounds ≡ span (grammar_of checked.now.tree.root) }
{
    let value = Boxed::new(alloc, make(alloc, checked.tree(), draw)?)?;
    outcome_of(alloc, checked, plan, value.get())
}

// How many of the drawn values went which way.
#[derive(Drop)]
struct Counts {
    read_again: u32,
    refused: u32,
    lost: u32,
}

fn told(alloc: Global, counts: &Counts) -> Result<String, NoMemory> {
    if counts.lost > 0 {
        Ok(format!(in alloc; "{} lost", counts.lost)?)
    } else if counts.refused == 0 {
        Ok("all read again".to_string(alloc)?)
    } else if counts.read_again == 0 {
        Ok("all refused".to_string(alloc)?)
    } else {
        Ok("some read again, the others refused".to_string(alloc)?)
    }
}

/// What became of so many values that are drawn from a start, one after the other.
pub fn drawn_told(
    alloc: Global,
    checked: &Checked,
    start: u64,
    count: u32,
) -> Result<String, NoMemory> {
    if !items_named(checked.tree()) {
        return Ok("not named".to_string(alloc)?);
    }
    let plan = compile(alloc, checked)?;
    let mut draw = Draw::new(start);
    let mut counts = Counts {
        read_again: 0,
        refused: 0,
        lost: 0,
    };
    for _ in 0..count {
        match next_outcome(alloc, checked, &plan, &mut draw)? {
            Outcome::ReadAgain => counts.read_again = counts.read_again.saturating_add(1),
            Outcome::Refused => counts.refused = counts.refused.saturating_add(1),
            Outcome::Lost => counts.lost = counts.lost.saturating_add(1),
        }
    }
    told(alloc, &counts)
}
