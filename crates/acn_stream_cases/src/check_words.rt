//! Faults of the checker from words.

use crate::words::path_of;
use acn_case_lines::{of_word, small, wide, word};
use acn_num::{NoMemory, Row};
use acn_tree::CheckFault;
use std::alloc::Global;

// Slots and their numbers, as `0=1`.
fn pairs_of(alloc: Global, words: &[&str]) -> Result<Row<(u32, i128)>, NoMemory> {
    let mut pairs = Row::new(alloc);
    for word in words {
        if let Some((slot, number)) = word.split_once("=") {
            pairs.push((slot.parse::<u32>().unwrap_or(0), of_word(number)))?;
        }
    }
    Ok(pairs)
}

fn overlap_of(alloc: Global, words: &[&str]) -> Result<CheckFault, NoMemory> {
    Ok(CheckFault::Overlap {
        choice: path_of(word(words, 1)),
        first: small(words, 2),
        second: small(words, 3),
        values: pairs_of(alloc, words.get(4..).unwrap_or(&[]))?,
    })
}

// A fault at a path, which holds nothing else.
fn plain_of(words: &[&str]) -> Option<CheckFault> {
    let path = path_of(word(words, 1));
    match word(words, 0) {
        "DetWidth" => Some(CheckFault::DetWidth { det: path }),
        "AbsentUnclear" => Some(CheckFault::AbsentUnclear { at: path }),
        "Unused" => Some(CheckFault::Unused { det: path }),
        "MixedChoice" => Some(CheckFault::MixedChoice { choice: path }),
        "TerminatorAmbiguous" => Some(CheckFault::TerminatorAmbiguous { list: path }),
        _ => None,
    }
}

// A fault with a count.
fn counted_of(words: &[&str]) -> Option<CheckFault> {
    match word(words, 0) {
        "TooLong" => Some(CheckFault::TooLong {
            bits: wide(words, 1),
        }),
        "TooManyValues" => Some(CheckFault::TooManyValues {
            count: wide(words, 1),
        }),
        "TooManyOpen" => Some(CheckFault::TooManyOpen {
            at: path_of(word(words, 1)),
            count: small(words, 2),
        }),
        "TooManyConditions" => Some(CheckFault::TooManyConditions {
            det: path_of(word(words, 1)),
            count: small(words, 2),
        }),
        _ => plain_of(words),
    }
}

/// The fault of these words: its name, and what it holds.
pub fn check_fault_of(alloc: Global, words: &[&str]) -> Result<Option<CheckFault>, NoMemory> {
    match word(words, 0) {
        "Forward" => Ok(Some(CheckFault::Forward {
            user: path_of(word(words, 1)),
            det: path_of(word(words, 2)),
        })),
        "DetKind" => Ok(Some(CheckFault::DetKind {
            user: path_of(word(words, 1)),
            det: path_of(word(words, 2)),
        })),
        "NoItem" => Ok(Some(CheckFault::NoItem {
            choice: path_of(word(words, 1)),
            alternative: small(words, 2),
        })),
        "NoMemory" => Ok(Some(CheckFault::NoMemory)),
        "Overlap" => Ok(Some(overlap_of(alloc, words)?)),
        _ => Ok(counted_of(words)),
    }
}
