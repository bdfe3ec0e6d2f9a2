//! What `check` answers, in words.

use acn_case_trees::path_in_words;
use acn_num::{NoMemory, Path};
use acn_tree::CheckFault;
use std::alloc::Global;

fn one_path(alloc: Global, kind: &str, path: &Path) -> Result<String, NoMemory> {
    let path = path_in_words(alloc, path)?;
    Ok(format!(in alloc; "{kind} {path}")?)
}

fn two_paths(alloc: Global, kind: &str, first: &Path, second: &Path) -> Result<String, NoMemory> {
    let first = path_in_words(alloc, first)?;
    let second = path_in_words(alloc, second)?;
    Ok(format!(in alloc; "{kind} {first} {second}")?)
}

fn counted(alloc: Global, kind: &str, path: &Path, count: u32) -> Result<String, NoMemory> {
    let path = path_in_words(alloc, path)?;
    Ok(format!(in alloc; "{kind} {path} {count}")?)
}

// Two alternatives of a CHOICE, and the numbers of slots under which both are chosen.
fn overlap(
    alloc: Global,
    choice: &Path,
    first: u32,
    second: u32,
    values: &[(u32, i128)],
) -> Result<String, NoMemory> {
    let choice = path_in_words(alloc, choice)?;
    let mut words = format!(in alloc; "Overlap {choice} {first} {second} at")?;
    for (slot, number) in values {
        write!(words, " {slot}=={number}")?;
    }
    Ok(words)
}

/// A fault in words. The paths of users stand before those of what they use.
pub fn fault_in_words(alloc: Global, fault: &CheckFault) -> Result<String, NoMemory> {
    match fault {
        CheckFault::Forward { user, det } => two_paths(alloc, "Forward", user, det),
        CheckFault::DetKind { user, det } => two_paths(alloc, "DetKind", user, det),
        CheckFault::DetWidth { det } => one_path(alloc, "DetWidth", det),
        CheckFault::Overlap {
            choice,
            first,
            second,
            values,
        } => overlap(alloc, choice, *first, *second, values.items()),
        CheckFault::AbsentUnclear { at } => one_path(alloc, "AbsentUnclear", at),
        CheckFault::Unused { det } => one_path(alloc, "Unused", det),
        CheckFault::NoItem {
            choice,
            alternative,
        } => counted(alloc, "NoItem", choice, *alternative),
        CheckFault::MixedChoice { choice } => one_path(alloc, "MixedChoice", choice),
        CheckFault::TooLong { bits } => Ok(format!(in alloc; "TooLong {bits}")?),
        CheckFault::TooManyOpen { at, count } => counted(alloc, "TooManyOpen", at, *count),
        CheckFault::TooManyConditions { det, count } => {
            counted(alloc, "TooManyConditions", det, *count)
        }
        CheckFault::TooManyValues { count } => Ok(format!(in alloc; "TooManyValues {count}")?),
        CheckFault::TerminatorAmbiguous { list } => one_path(alloc, "TerminatorAmbiguous", list),
        CheckFault::NoMemory => Err(NoMemory),
    }
}
