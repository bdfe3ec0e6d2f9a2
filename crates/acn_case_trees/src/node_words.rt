//! What stands in front of a node and in it, in words, as they are read.

use acn_num::{Name, NoMemory};
use acn_tree::{ChoiceRule, Presence, Test};
use std::alloc::Global;

/// Adds a name.
pub fn push_name(alloc: Global, name: &Name, words: &mut String) -> Result<(), NoMemory> {
    let name = String::from_utf8_lossy(alloc, name.bytes())?;
    words.push_str(name.as_str())?;
    Ok(())
}

/// Adds to how many bits a node is aligned, if it is.
pub fn push_align(align: u32, words: &mut String) -> Result<(), NoMemory> {
    if align != 1 {
        write!(words, " align {align}")?;
    }
    Ok(())
}

/// Adds conditions, if there are any.
pub fn push_tests(tests: &[Test], words: &mut String) -> Result<(), NoMemory> {
    if !tests.is_empty() {
        words.push_str(" when")?;
    }
    for test in tests {
        match test {
            Test::Flag(slot) => write!(words, " {slot}")?,
            Test::Equals(slot, number) => write!(words, " {slot}=={number}")?,
        }
    }
    Ok(())
}

fn push_presence(presence: &Presence, words: &mut String) -> Result<(), NoMemory> {
    match presence {
        Presence::Always => Ok(()),
        Presence::Bit => {
            words.push_str(" optional")?;
            Ok(())
        }
        Presence::When(tests) => push_tests(tests.items(), words),
    }
}

fn push_default(alloc: Global, default: &Option<Name>, words: &mut String) -> Result<(), NoMemory> {
    if let Some(text) = default {
        words.push_str(" default ")?;
        push_name(alloc, text, words)?;
    }
    Ok(())
}

fn push_slot(word: &str, slot: Option<u32>, words: &mut String) -> Result<(), NoMemory> {
    if let Some(slot) = slot {
        write!(words, "{word}{slot}")?;
    }
    Ok(())
}

/// Adds what stands in front of a component's body.
pub fn push_component(
    alloc: Global,
    name: &Name,
    slot: Option<u32>,
    align: u32,
    default: &Option<Name>,
    presence: &Presence,
    words: &mut String,
) -> Result<(), NoMemory> {
    words.push_str("component ")?;
    push_name(alloc, name, words)?;
    push_slot(" slot ", slot, words)?;
    push_align(align, words)?;
    push_default(alloc, default, words)?;
    push_presence(presence, words)
}

/// Adds what stands in front of an inserted field's body.
pub fn push_inserted(
    alloc: Global,
    name: &Name,
    slot: Option<u32>,
    align: u32,
    words: &mut String,
) -> Result<(), NoMemory> {
    words.push_str("inserted ")?;
    push_name(alloc, name, words)?;
    push_slot(" ", slot, words)?;
    push_align(align, words)
}

/// Adds a CHOICE without its alternatives.
pub fn push_choice(rule: ChoiceRule, words: &mut String) -> Result<(), NoMemory> {
    match rule {
        ChoiceRule::Index(width) => write!(words, "choice index {width}")?,
        ChoiceRule::Tests => words.push_str("choice tests")?,
        ChoiceRule::Item(slot) => write!(words, "choice item {slot}")?,
    }
    Ok(())
}

/// Adds a SEQUENCE without its fields.
pub fn push_sequence(home: &[u32], words: &mut String) -> Result<(), NoMemory> {
    words.push_str("sequence")?;
    if !home.is_empty() {
        words.push_str(" home")?;
    }
    for slot in home {
        write!(words, " {slot}")?;
    }
    Ok(())
}
