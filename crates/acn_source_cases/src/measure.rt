//! What the constraints of a type leave, in words.

use acn_asn_syntax::AsnValue;
use acn_case_sheets::Trouble;
use acn_constraint::{ConstraintFault, OpenSet, TextSets, alphabet_of, range_of, size_of, text_of};
use acn_num::RangeSet;
use acn_world::{Chain, World};
use std::alloc::Global;

/// The chain of the type of the value t in the first module.
pub fn chain_of_t(alloc: Global, world: &World) -> Result<Chain<'_>, Trouble> {
    match world.value(0, b"t") {
        Some((module, of, AsnValue::Null)) => Ok(world.chain(alloc, module, of)?),
        _ => Err(Trouble::Absent),
    }
}

// Adds a range: one number, or its two ends.
fn push_range(low: i128, high: i128, words: &mut String) -> Result<(), Trouble> {
    let space = if words.is_empty() { "" } else { " " };
    if low == high {
        write!(words, "{space}{low}")?;
    } else {
        write!(words, "{space}{low}..{high}")?;
    }
    Ok(())
}

/// The ranges of a set in words, as `0..2 5`.
pub fn ranges_in_words(alloc: Global, set: &RangeSet) -> Result<String, Trouble> {
    let mut words = String::new(alloc);
    for range in set.ranges() {
        push_range(range.0, range.1, &mut words)?;
    }
    Ok(words)
}

// The ranges, and which ends are open.
fn open_in_words(alloc: Global, set: &OpenSet) -> Result<String, Trouble> {
    let mut words = ranges_in_words(alloc, &set.numbers)?;
    if set.open_below {
        words.push_str(" open below")?;
    }
    if set.open_above {
        words.push_str(" open above")?;
    }
    Ok(words)
}

/// The fault of constraints in words.
pub fn fault_in_words(alloc: Global, fault: ConstraintFault) -> Result<String, Trouble> {
    match fault {
        ConstraintFault::NoMemory => Err(Trouble::NoMemory),
        ConstraintFault::Empty => Ok("Empty".to_string(alloc)?),
        ConstraintFault::Unbounded => Ok("Unbounded".to_string(alloc)?),
        ConstraintFault::TooWide { number } => Ok(format!(in alloc; "TooWide {number}")?),
        ConstraintFault::SizeLimit { size } => Ok(format!(in alloc; "SizeLimit {size}")?),
        ConstraintFault::NotHere => Ok("NotHere".to_string(alloc)?),
    }
}

/// The numbers of the type of t in this world in words, or the fault.
pub fn numbers_of_t(alloc: Global, world: &World) -> Result<String, Trouble> {
    let chain = chain_of_t(alloc, world)?;
    match range_of(alloc, world, &chain) {
        Ok(set) => open_in_words(alloc, &set),
        Err(fault) => fault_in_words(alloc, fault),
    }
}

// How many numbers a set has, in how many ranges, and its ends.
fn count_in_words(alloc: Global, set: &RangeSet) -> Result<String, Trouble> {
    let ranges = set.ranges().len();
    match (set.least(), set.greatest()) {
        (Some(least), Some(greatest)) => {
            Ok(format!(in alloc; "{} in {ranges} ranges, {least}..{greatest}", set.count())?)
        }
        _ => Ok("nothing".to_string(alloc)?),
    }
}

/// How many numbers the type of t in this world has, or the fault.
pub fn count_of_t(alloc: Global, world: &World) -> Result<String, Trouble> {
    let chain = chain_of_t(alloc, world)?;
    match range_of(alloc, world, &chain) {
        Ok(set) => count_in_words(alloc, &set.numbers),
        Err(fault) => fault_in_words(alloc, fault),
    }
}

/// The sizes of the type of t in this world in words, `none` where no SIZE is written, or the fault.
pub fn sizes_of_t(alloc: Global, world: &World) -> Result<String, Trouble> {
    let chain = chain_of_t(alloc, world)?;
    match size_of(alloc, world, &chain) {
        Ok(None) => Ok("none".to_string(alloc)?),
        Ok(Some(sizes)) => ranges_in_words(alloc, &sizes),
        Err(fault) => fault_in_words(alloc, fault),
    }
}

/// The characters of the type of t in this world in words, or the fault.
pub fn characters_of_t(alloc: Global, world: &World) -> Result<String, Trouble> {
    let chain = chain_of_t(alloc, world)?;
    match alphabet_of(alloc, world, &chain) {
        Ok(characters) => ranges_in_words(alloc, &characters),
        Err(fault) => fault_in_words(alloc, fault),
    }
}

// The sizes and the characters.
fn text_in_words(alloc: Global, sets: &TextSets) -> Result<String, Trouble> {
    let sizes = ranges_in_words(alloc, &sets.sizes)?;
    let characters = ranges_in_words(alloc, &sets.characters)?;
    Ok(format!(in alloc; "{sizes} of {characters}")?)
}

/// The sizes and the characters of the type of t in this world in words, or the one fault of both.
pub fn text_of_t(alloc: Global, world: &World) -> Result<String, Trouble> {
    let chain = chain_of_t(alloc, world)?;
    match text_of(alloc, world, &chain) {
        Ok(sets) => text_in_words(alloc, &sets),
        Err(fault) => fault_in_words(alloc, fault),
    }
}
