//! The files of a group.

use crate::answer::answer;
use acn_case_sheets::{CaseFiles, Trouble, bytes_of, trouble_in_words};
use acn_num::{Name, NoMemory};
use acn_outside::MemFiles;
use std::alloc::Global;

// A file of so many spaces.
#[derive(Drop)]
struct Blank {
    name: String,
    count: u32,
}

/// The files of a group: those with a text, and their names in the same order; and those of spaces.
#[derive(Drop)]
pub struct Sheet {
    names: Vec<String>,
    files: CaseFiles,
    blanks: Vec<Blank>,
}

// The bytes of so many spaces.
fn spaces(alloc: Global, count: u32) -> Result<Vec<u8>, NoMemory> {
    Ok(vec![in alloc; b' '; count as usize]?)
}

impl Sheet {
    /// No files.
    pub fn new(alloc: Global) -> Sheet {
        Sheet {
            names: Vec::new(alloc),
            files: CaseFiles::new(alloc),
            blanks: Vec::new(alloc),
        }
    }

    // Adds a file; what it holds, its name says.
    fn add(&mut self, alloc: Global, file: &str) -> Result<bool, NoMemory> {
        let (name, text) = file.split_once(" ").unwrap_or((file, ""));
        self.names.push(name.to_string(alloc)?)?;
        let line = format!(in alloc; "asn {text}")?;
        self.files.take(alloc, line.as_str())
    }

    fn add_blank(&mut self, alloc: Global, file: &str) -> Result<bool, NoMemory> {
        let (name, count) = file.split_once(" ").unwrap_or((file, ""));
        let name = name.to_string(alloc)?;
        let count = count.parse::<u32>().unwrap_or(0);
        self.blanks.push(Blank { name, count })?;
        Ok(true)
    }

    /// The files, with the parts of a case in their places. The calls of these numbers fail.
    pub fn in_memory(
        &self,
        alloc: Global,
        parts: &[&str],
        fail: Vec<u64>,
    ) -> Result<MemFiles, Trouble> {
        let mut files = MemFiles::new(alloc, fail);
        for (name, file) in self.names.iter().zip(self.files.list.iter()) {
            let text = file.filled(alloc, parts)?;
            let bytes = bytes_of(alloc, text.as_str())?;
            files.add(Name::copy(alloc, name.as_bytes())?, bytes)?;
        }
        for blank in self.blanks.iter() {
            let name = Name::copy(alloc, blank.name.as_bytes())?;
            files.add(name, spaces(alloc, blank.count)?)?;
        }
        Ok(files)
    }

    /// The answer to a case.
    pub fn told(&self, alloc: Global, case: &str) -> Result<String, NoMemory> {
        match answer(alloc, self, case) {
            Ok(answer) => Ok(answer),
            Err(trouble) => trouble_in_words(alloc, trouble),
        }
    }

    /// Takes a line that is no case. False comes where it isn't understood.
    pub fn take(&mut self, alloc: Global, line: &str) -> Result<bool, NoMemory> {
        let (word, text) = line.split_once(" ").unwrap_or((line, ""));
        match word {
            "file" => self.add(alloc, text),
            "spaces" => self.add_blank(alloc, text),
            "" => self.files.take(alloc, line),
            "times" => self.files.take(alloc, line),
            _ => Ok(false),
        }
    }
}
