//! Asks and their conflicts in words.

use acn_fill::Conflict;
use acn_grammar::Ask;
use acn_num::NoMemory;

fn say_ask(ask: Ask, said: &mut String) -> Result<(), NoMemory> {
    match ask {
        Ask::Equal(number) => write!(said, " ={number}")?,
        Ask::Avoid(number) => write!(said, " !={number}")?,
    }
    Ok(())
}

/// A conflict in words.
pub fn say_conflict(conflict: Conflict, said: &mut String) -> Result<(), NoMemory> {
    said.push_str("Conflict")?;
    match conflict.earlier {
        Some(earlier) => say_ask(earlier, said)?,
        None => said.push_str(" -")?,
    }
    say_ask(conflict.wanted, said)
}
