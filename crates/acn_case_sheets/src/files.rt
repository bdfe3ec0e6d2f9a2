//! The files of a group, and their texts for a case.

use crate::turns::repeat;
use acn_num::NoMemory;
use acn_sources::FileKind;
use std::alloc::Global;

/// A file.
#[derive(Drop)]
pub struct CaseFile {
    /// What it holds.
    pub kind: FileKind,
    /// Its text, in which `$1`, `$2` and `$3` stand for the parts of a case.
    pub text: String,
}

/// The files of a group.
#[derive(Drop)]
pub struct CaseFiles {
    /// The files, in order.
    pub list: Vec<CaseFile>,
}

// Adds what stands behind a `$`: the part that it names, if there is one, and the text.
fn put_piece(parts: &[&str], piece: &str, text: &mut String) -> Result<(), NoMemory> {
    for (place, number) in ["1", "2", "3"].iter().enumerate() {
        if let Some(rest) = piece.strip_prefix(*number) {
            if let Some(part) = parts.get(place) {
                text.push_str(*part)?;
            }
            text.push_str(rest)?;
            return Ok(());
        }
    }
    text.push_str(piece)?;
    Ok(())
}

/// The parts of a case, which `;;` divides. A space before the arrow is none of the case.
pub fn parts_of(alloc: Global, case: &str) -> Result<Vec<&str>, NoMemory> {
    let case = case.strip_suffix(" ").unwrap_or(case);
    Ok(case.split(";;").collect(alloc)?)
}

impl CaseFile {
    /// Its text, with the parts in their places.
    pub fn filled(&self, alloc: Global, parts: &[&str]) -> Result<String, NoMemory> {
        let mut text = String::new(alloc);
        for (place, piece) in self.text.split("$").enumerate() {
            if place == 0 {
                text.push_str(piece)?;
            } else {
                put_piece(parts, piece, &mut text)?;
            }
        }
        Ok(text)
    }
}

impl CaseFiles {
    /// No files.
    pub fn new(alloc: Global) -> CaseFiles {
        CaseFiles {
            list: Vec::new(alloc),
        }
    }

    fn add(&mut self, alloc: Global, kind: FileKind, text: &str) -> Result<bool, NoMemory> {
        let text = text.to_string(alloc)?;
        self.list.push(CaseFile { kind, text })?;
        Ok(true)
    }

    // Goes on with the last file in a line of its own.
    fn go_on(&mut self, text: &str) -> Result<bool, NoMemory> {
        match self.list.last_mut() {
            Some(file) => {
                file.text.push_str("\n")?;
                file.text.push_str(text)?;
                Ok(true)
            }
            None => Ok(false),
        }
    }

    // Goes on with the last file, once for each of some numbers.
    fn repeat(&mut self, words: &str) -> Result<bool, NoMemory> {
        match self.list.last_mut() {
            Some(file) => repeat(words, &mut file.text),
            None => Ok(false),
        }
    }

    /// Takes a line of files. False comes where it is none.
    pub fn take(&mut self, alloc: Global, line: &str) -> Result<bool, NoMemory> {
        if line.starts_with(" ") {
            return self.go_on(line);
        }
        let (word, text) = line.split_once(" ").unwrap_or((line, ""));
        match word {
            "asn" => self.add(alloc, FileKind::Asn, text),
            "acn" => self.add(alloc, FileKind::Acn, text),
            "map" => self.add(alloc, FileKind::Map, text),
            "times" => self.repeat(text),
            _ => Ok(false),
        }
    }
}
