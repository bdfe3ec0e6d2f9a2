//! The slots and homes of paths that are given without sources.

ghost use Rattle.std.specs.Prelude.{◌≡◌, ◌≤◌, length, true};
ghost use Rattle.acn_homes.specs.Homes.{slots};
ghost use Rattle.acn_homes.specs.declared.homes.TheConstants.{MOST_SLOTS};

use acn_homes::{Homes, MOST_SLOTS, Use, slots_are_named};
use acn_num::{NoMemory, Row};
use std::alloc::Global;

/// The paths of inserted fields, as they come, and those of uses.
#[derive(Drop)]
pub struct Paths {
    inserted: Row<Row<usize>>,
    uses: Row<Use>,
}

// The steps of a word, divided by full stops; `root` has none.
fn steps_of(alloc: Global, word: &str) -> Result<Row<usize>, NoMemory> {
    let mut steps = Row::new(alloc);
    if word != "root" {
        for step in word.split(".") {
            steps.push(step.parse::<usize>().unwrap_or(0))?;
        }
    }
    Ok(steps)
}

/// The paths of words: `FIELD` is an inserted field, `USER<-FIELD` a use.
pub fn paths_of(alloc: Global, words: &str) -> Result<Paths, NoMemory> {
    let mut inserted = Row::new(alloc);
    let mut uses = Row::new(alloc);
    for word in words.split_whitespace() {
        match word.split_once("<-") {
            Some((user, field)) => {
                let user = steps_of(alloc, user)?;
                let field = steps_of(alloc, field)?;
                uses.push(Use { user, field })?;
            }
            None => inserted.push(steps_of(alloc, word)?)?,
        }
    }
    Ok(Paths { inserted, uses })
}

// Whether there are no more paths than slots have numbers.
fn are_few(inserted: &[Row<usize>], uses: &[Use]) -> bool
    ensures { result ≡ true → length (slots inserted.now uses.now) ≤ MOST_SLOTS }
{
    let _law = slots_are_named();
    inserted.len() <= MOST_SLOTS && uses.len() <= MOST_SLOTS - inserted.len()
}

// The number of the slot of a path, and the numbers at home there.
fn slot_in_words(alloc: Global, homes: &Homes<'_>, path: &[usize]) -> Result<String, NoMemory> {
    let mut words = String::new(alloc);
    match homes.number(path) {
        Some(number) => write!(words, "slot {number}")?,
        None => words.push_str("no slot")?,
    }
    for (place, number) in homes.at_home(path).iter().enumerate() {
        let head = if place == 0 { "; at home" } else { "" };
        write!(words, "{head} {number}")?;
    }
    Ok(words)
}

/// The slot of the path of a case and the slots that are at home there, or for `count` how many
/// slots there are.
pub fn slot_of_path(alloc: Global, paths: &Paths, case: &str) -> Result<String, NoMemory> {
    let inserted = paths.inserted.items();
    let uses = paths.uses.items();
    if !are_few(inserted, uses) {
        return Ok("too many".to_string(alloc)?);
    }
    let homes = Homes::new(alloc, inserted, uses)?;
    if case == "count" {
        return Ok(format!(in alloc; "{}", homes.count())?);
    }
    let path = steps_of(alloc, case)?;
    slot_in_words(alloc, &homes, path.items())
}
