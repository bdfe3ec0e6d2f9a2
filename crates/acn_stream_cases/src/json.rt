//! Lines of JSON and their values.

ghost use Rattle.std.specs.Prelude.{◌≤◌, length};
ghost use Rattle.acn_json.specs.declared.read.TheConstants.{MOST_JSON_BYTES};

use crate::bytes::{bytes_of, nested_of};
use acn_case_trees::{path_in_words, value_in_words, value_of};
use acn_json::{JsonFault, MOST_JSON_BYTES, from_line, to_line};
use acn_lines::{Lines, Room};
use acn_num::{NoMemory, Path};
use acn_tree::{Tree, Value};
use std::alloc::Global;

fn at_path(alloc: Global, path: &Path, name: &str) -> Result<String, NoMemory> {
    let path = path_in_words(alloc, path)?;
    Ok(format!(in alloc; "{path} {name}")?)
}

fn unknown_member(alloc: Global, path: &Path, member: u32) -> Result<String, NoMemory> {
    let path = path_in_words(alloc, path)?;
    Ok(format!(in alloc; "{path} UnknownMember {member}")?)
}

/// The fault of a line.
pub fn line_fault(alloc: Global, fault: &JsonFault) -> Result<String, NoMemory> {
    match fault {
        JsonFault::NotJson => Ok("NotJson".to_string(alloc)?),
        JsonFault::Shape { path } => at_path(alloc, path, "Shape"),
        JsonFault::UnknownMember { path, member } => unknown_member(alloc, path, *member),
        JsonFault::MissingMember { path } => at_path(alloc, path, "MissingMember"),
        JsonFault::NoMemory => Err(NoMemory),
    }
}

// The line of a value, as `Lines` puts it.
fn put(alloc: Global, tree: &Tree, value: &Value) -> Result<Vec<u8>, NoMemory> {
    let lines = Lines::new(alloc, tree)?;
    let mut line = Vec::new(alloc);
    lines.put(tree, value, &mut line)?;
    Ok(line)
}

// The line of a value, if both calls that print it say the same.
fn line_in_words(alloc: Global, tree: &Tree, value: &Value) -> Result<String, NoMemory> {
    let line = to_line(alloc, tree, value)?;
    let same = put(alloc, tree, value)?;
    if line.as_slice() != same.as_slice() {
        return Ok("two lines".to_string(alloc)?);
    }
    Ok(String::from_utf8_lossy(alloc, line.as_slice())?)
}

// The value of a line, or its fault.
fn value_told(alloc: Global, said: Result<Value, JsonFault>) -> Result<String, NoMemory> {
    match said {
        Ok(value) => {
            let words = value_in_words(alloc, &value)?;
            Ok(words.as_str().trim().to_string(alloc)?)
        }
        Err(fault) => line_fault(alloc, &fault),
    }
}

// What a line gives, as `Lines` takes it.
fn taken(alloc: Global, tree: &Tree, line: &[u8]) -> Result<String, NoMemory>
    requires few { length line.now ≤ MOST_JSON_BYTES }
{
    let lines = Lines::new(alloc, tree)?;
    let mut room = Room::new(alloc);
    value_told(alloc, lines.take(alloc, tree, &mut room, line))
}

// What a line gives, if both calls that read it say the same.
fn read(alloc: Global, tree: &Tree, line: &[u8]) -> Result<String, NoMemory> {
    if line.len() > MOST_JSON_BYTES {
        return Ok("too many bytes".to_string(alloc)?);
    }
    let said = value_told(alloc, from_line(alloc, tree, line))?;
    let same = taken(alloc, tree, line)?;
    if said.as_str() == same.as_str() {
        Ok(said)
    } else {
        Ok("two values".to_string(alloc)?)
    }
}

// The line of the value that a line gives.
fn again(alloc: Global, tree: &Tree, line: &[u8]) -> Result<String, NoMemory> {
    if line.len() > MOST_JSON_BYTES {
        return Ok("too many bytes".to_string(alloc)?);
    }
    match from_line(alloc, tree, line) {
        Ok(value) => line_in_words(alloc, tree, &value),
        Err(fault) => line_fault(alloc, &fault),
    }
}

// Whether a line is JSON.
fn is_json(alloc: Global, tree: &Tree, line: &[u8]) -> Result<bool, NoMemory> {
    if line.len() > MOST_JSON_BYTES {
        return Ok(false);
    }
    match from_line(alloc, tree, line) {
        Err(JsonFault::NotJson) => Ok(false),
        Err(JsonFault::NoMemory) => Err(NoMemory),
        _ => Ok(true),
    }
}

// The lengths of the fronts that are JSON, and `none` where there are none.
fn cut(alloc: Global, tree: &Tree, line: &[u8]) -> Result<String, NoMemory> {
    let mut lengths = String::new(alloc);
    for length in 0..=line.len() {
        if is_json(alloc, tree, line.get(..length).unwrap_or(&[]))? {
            let space = if lengths.is_empty() { "" } else { " " };
            write!(lengths, "{space}{length}")?;
        }
    }
    if lengths.is_empty() {
        lengths.push_str("none")?;
    }
    Ok(lengths)
}

fn line_told(alloc: Global, tree: &Tree, text: &str) -> Result<String, NoMemory> {
    let words: Vec<&str> = text.split_whitespace().collect(alloc)?;
    match value_of(alloc, words.as_slice())? {
        Some(value) => line_in_words(alloc, tree, value.get()),
        None => Ok("no value".to_string(alloc)?),
    }
}

/// What a question of a line or a value is answered.
pub fn json_told(alloc: Global, tree: &Tree, case: &str) -> Result<String, NoMemory> {
    let (question, text) = case.split_once(" ").unwrap_or((case, ""));
    let text = text.trim();
    match question {
        "read" => read(alloc, tree, bytes_of(alloc, text)?.as_slice()),
        "again" => again(alloc, tree, bytes_of(alloc, text)?.as_slice()),
        "cut" => cut(alloc, tree, bytes_of(alloc, text)?.as_slice()),
        "nested" => read(alloc, tree, nested_of(alloc, text)?.as_slice()),
        "line" => line_told(alloc, tree, text),
        _ => Ok("not understood".to_string(alloc)?),
    }
}
