//! Two trees of the same lines, with other parts in their places.

use crate::accepted::accepted;
use acn_case_trees::{Built, Sheet, path_in_words};
use acn_check::Checked;
use acn_compare::{Answer, Reason, compare};
use acn_num::{Boxed, NoMemory, Path};
use std::alloc::Global;

// A tree that is accepted, or why there is none.
#[derive(Drop)]
enum Made {
    Accepted(Boxed<Checked>),
    Refused(&'static str),
}

fn checked_tree(alloc: Global, sheet: &Sheet, parts: &[&str]) -> Result<Made, NoMemory> {
    match sheet.built(alloc, parts)? {
        Built::Tree(tree) => match accepted(alloc, tree)? {
            Some(checked) => Ok(Made::Accepted(checked)),
            None => Ok(Made::Refused("not accepted")),
        },
        Built::NoTree => Ok(Made::Refused("no tree")),
        Built::Unknown => Ok(Made::Refused("not understood")),
    }
}

fn reason_word(reason: Reason) -> &'static str {
    match reason {
        Reason::Kind => "Kind",
        Reason::Align => "Align",
        Reason::Coding => "Coding",
        Reason::Values => "Values",
        Reason::Names => "Names",
        Reason::Fields => "Fields",
        Reason::Presence => "Presence",
        Reason::Determinant => "Determinant",
        Reason::Alternatives => "Alternatives",
    }
}

fn no_in_words(
    alloc: Global,
    at: &Path,
    reason: Reason,
    number: Option<i128>,
) -> Result<String, NoMemory> {
    let path = path_in_words(alloc, at)?;
    match number {
        Some(number) => Ok(format!(in alloc; "no {path} {} {number}", reason_word(reason))?),
        None => Ok(format!(in alloc; "no {path} {}", reason_word(reason))?),
    }
}

fn answer_in_words(alloc: Global, old: &Checked, new: &Checked) -> Result<String, NoMemory> {
    match compare(alloc, old, new)? {
        Answer::Yes => Ok("yes".to_string(alloc)?),
        Answer::No { at, reason, number } => no_in_words(alloc, &at, reason, number),
    }
}

fn against(
    alloc: Global,
    sheet: &Sheet,
    old: &Checked,
    parts: &[&str],
) -> Result<String, NoMemory> {
    match checked_tree(alloc, sheet, parts)? {
        Made::Accepted(new) => answer_in_words(alloc, old, new.get()),
        Made::Refused(why) => Ok(format!(in alloc; "new: {why}")?),
    }
}

fn two(alloc: Global, sheet: &Sheet, old: &str, new: &str) -> Result<String, NoMemory> {
    let older: Vec<&str> = old.split(";;").collect(alloc)?;
    let newer: Vec<&str> = new.split(";;").collect(alloc)?;
    match checked_tree(alloc, sheet, older.get(1..).unwrap_or(&[]))? {
        Made::Accepted(old) => { against(alloc, sheet, old.get(), newer.get(1..).unwrap_or(&[])) }
        Made::Refused(why) => Ok(format!(in alloc; "old: {why}")?),
    }
}

/// What `compare` answers of the two trees of a case.
pub fn compared(alloc: Global, sheet: &Sheet, case: &str) -> Result<String, NoMemory> {
    match case.split_once(" / ") {
        Some((old, new)) => two(alloc, sheet, old, new),
        None => Ok("not understood".to_string(alloc)?),
    }
}
