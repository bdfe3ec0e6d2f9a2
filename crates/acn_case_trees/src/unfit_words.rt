//! Why a value isn't one of a tree's, in words.

use crate::path_words::path_in_words;
use acn_num::{NoMemory, Path};
use acn_tree::{Ask, Unfit, UnfitReason};
use std::alloc::Global;

fn push_ask(ask: Ask, words: &mut String) -> Result<(), NoMemory> {
    match ask {
        Ask::Equal(number) => write!(words, " ={number}")?,
        Ask::Avoid(number) => write!(words, " !={number}")?,
    }
    Ok(())
}

// The field, what was asked of it before, if that is why, and what is asked.
fn conflict_in_words(
    alloc: Global,
    field: &Path,
    earlier: Option<Ask>,
    wanted: Ask,
) -> Result<String, NoMemory> {
    let field = path_in_words(alloc, field)?;
    let mut words = format!(in alloc; "Conflict {field}")?;
    if let Some(earlier) = earlier {
        push_ask(earlier, &mut words)?;
    }
    push_ask(wanted, &mut words)?;
    Ok(words)
}

fn reason_in_words(alloc: Global, reason: &UnfitReason) -> Result<String, NoMemory> {
    match reason {
        UnfitReason::OutOfRange { value } => Ok(format!(in alloc; "OutOfRange {value}")?),
        UnfitReason::SizeOutOfRange { n } => Ok(format!(in alloc; "SizeOutOfRange {n}")?),
        UnfitReason::BadCharacter { index } => Ok(format!(in alloc; "BadCharacter {index}")?),
        UnfitReason::TerminatorInside { index } => {
            Ok(format!(in alloc; "TerminatorInside {index}")?)
        }
        UnfitReason::Conflict {
            slot,
            earlier,
            wanted,
        } => conflict_in_words(alloc, slot, *earlier, *wanted),
        UnfitReason::ContentSize { octets } => Ok(format!(in alloc; "ContentSize {octets}")?),
    }
}

/// The place and the reason.
pub fn unfit_in_words(alloc: Global, unfit: &Unfit) -> Result<String, NoMemory> {
    let path = path_in_words(alloc, &unfit.path)?;
    let reason = reason_in_words(alloc, &unfit.reason)?;
    Ok(format!(in alloc; "{path} {reason}")?)
}
