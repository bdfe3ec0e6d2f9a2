//! What is answered to what is asked of fields, each by its path.

use crate::said::say_conflict;
use acn_asks::{Heard, Unmet};
use acn_case_lines::{of_word, set_of, word};
use acn_fill::Conflict;
use acn_grammar::Ask;
use acn_num::{NoMemory, RangeSet};
use std::alloc::Global;

/// The fields of which something was asked, which have the same numbers, and the answers so far.
#[derive(Drop)]
struct Asking<'s> {
    alloc: Global,
    set: &'s RangeSet,
    heard: Heard,
    said: String,
}

// The ask of a word, `=N` or `!=N`.
fn ask_of(word: &str) -> Ask {
    match word.strip_prefix("=") {
        Some(number) => Ask::Equal(of_word(number)),
        None => Ask::Avoid(of_word(word.strip_prefix("!=").unwrap_or(word))),
    }
}

impl<'s> Asking<'s> {
    fn new(alloc: Global, set: &'s RangeSet) -> Asking<'s> {
        Asking {
            alloc,
            set,
            heard: Heard::new(alloc),
            said: String::new(alloc),
        }
    }

    // Asks this of a field, and says what it is answered.
    fn ask(&mut self, field: &[u32], wanted: Ask) -> Result<(), NoMemory> {
        match self.heard.hear(self.alloc, field, self.set, &wanted) {
            Ok(()) => Ok(self.said.push_str("Ok")?),
            Err(Unmet::Conflict { earlier }) => {
                say_conflict(Conflict { earlier, wanted }, &mut self.said)
            }
            Err(Unmet::NoMemory) => Err(NoMemory),
        }
    }

    // Says the least number of a field.
    fn say_least(&mut self, field: &[u32]) -> Result<(), NoMemory> {
        match self.heard.least(field, self.set) {
            Some(least) => write!(self.said, "{least}")?,
            None => self.said.push_str("none")?,
        }
        Ok(())
    }

    // Asks what a word says: a path, and behind it an ask or `?`.
    fn answer(&mut self, word: &str) -> Result<(), NoMemory> {
        let at = word
            .find(|c: char| matches!(c, '=' | '!' | '?'))
            .unwrap_or(0);
        let (path, asked) = (word.get(..at).unwrap_or(""), word.get(at..).unwrap_or(""));
        let mut field = Vec::new(self.alloc);
        for step in path.split(".") {
            field.push(step.parse::<u32>().unwrap_or(0))?;
        }
        if asked == "?" {
            self.say_least(field.as_slice())
        } else {
            self.ask(field.as_slice(), ask_of(asked))
        }
    }
}

/// What one field is answered whose numbers are these, and its least number then.
pub fn heard_alone(alloc: Global, set: &RangeSet, words: &[&str]) -> Result<String, NoMemory> {
    let mut asking = Asking::new(alloc, set);
    for word in words {
        asking.ask(&[0], ask_of(*word))?;
        asking.said.push_str(", ")?;
    }
    asking.say_least(&[0])?;
    Ok(asking.said)
}

/// What fields are answered whose numbers are the set of the first word.
pub fn heard(alloc: Global, words: &[&str]) -> Result<String, NoMemory> {
    let Some(set) = set_of(alloc, word(words, 0))? else {
        return Ok("not understood".to_string(alloc)?);
    };
    let mut asking = Asking::new(alloc, &set);
    for word in words.get(1..).unwrap_or(&[]) {
        if !asking.said.is_empty() {
            asking.said.push_str(", ")?;
        }
        asking.answer(*word)?;
    }
    Ok(asking.said)
}
