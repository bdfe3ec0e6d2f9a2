//! The answer to a case.

use crate::filing::{files_told, kind_told};
use crate::graph::{long_ring_told, ring_told};
use crate::looking::{
    chain_told, entry_told, find_told, lookup_told, roots_told, table_told, value_told,
};
use crate::measure::{
    chain_of_t, characters_of_t, count_of_t, numbers_of_t, sizes_of_t, text_of_t,
};
use crate::names::told;
use crate::outside::outside_told;
use crate::reading::{kept_told, print_told, tokens_told};
use crate::sheet::{Question, Sheet};
use crate::siting::sites_of_t;
use acn_case_sheets::{Trouble, parts_of, sources, trouble_in_words, world_of};
use acn_num::NoMemory;
use acn_world::World;
use std::alloc::Global;

// What a world answers about the words of a case.
fn looked_up(
    alloc: Global,
    world: &World,
    question: Question,
    words: &[&str],
) -> Result<String, Trouble> {
    match question {
        Question::Roots => roots_told(alloc, world),
        Question::Find => find_told(alloc, world, words),
        Question::Lookup => lookup_told(alloc, world, words),
        Question::Value => value_told(alloc, world, words),
        Question::Entry => entry_told(alloc, world, words),
        Question::Table => table_told(alloc, world, words),
        Question::Chain => chain_told(alloc, &chain_of_t(alloc, world)?),
        Question::Numbers => numbers_of_t(alloc, world),
        Question::Count => count_of_t(alloc, world),
        Question::Sizes => sizes_of_t(alloc, world),
        Question::Characters => characters_of_t(alloc, world),
        Question::Sites => sites_of_t(alloc, world),
        Question::Text => text_of_t(alloc, world),
        _ => Err(Trouble::Absent),
    }
}

// The answer of a world of the files.
fn of_world(
    alloc: Global,
    sheet: &Sheet,
    parts: &[&str],
    words: &[&str],
) -> Result<String, Trouble> {
    let world = world_of(alloc, &sheet.files, parts)?;
    looked_up(alloc, &world, sheet.question, words)
}

fn found(alloc: Global, sheet: &Sheet, parts: &[&str], words: &[&str]) -> Result<String, Trouble> {
    match sheet.question {
        Question::Tokens => tokens_told(alloc, &sheet.files, parts),
        Question::Print => print_told(alloc, &sheet.files, parts),
        Question::Kept => kept_told(alloc, &sheet.files, parts),
        Question::Read => {
            let _all = sources(alloc, &sheet.files, parts, true)?;
            Ok("Ok".to_string(alloc)?)
        }
        Question::Files => files_told(alloc, &sheet.files, parts),
        Question::Kind => Ok(kind_told(alloc, parts.first().copied().unwrap_or(""))?),
        Question::Ring => Ok(ring_told(alloc, words)?),
        Question::LongRing => Ok(long_ring_told(alloc, words)?),
        Question::Outside => Ok(outside_told(alloc, words)?),
        Question::Names => told(alloc, sources(alloc, &sheet.files, parts, false)?),
        _ => of_world(alloc, sheet, parts, words),
    }
}

/// The answer to a case of a sheet, or why there is none.
pub fn answer(alloc: Global, sheet: &Sheet, case: &str) -> Result<String, NoMemory> {
    let parts = parts_of(alloc, case)?;
    let words: Vec<&str> = case.split_whitespace().collect(alloc)?;
    match found(alloc, sheet, parts.as_slice(), words.as_slice()) {
        Ok(answer) => Ok(answer),
        Err(trouble) => trouble_in_words(alloc, trouble),
    }
}
