//! The asked type and the files of a group.

use acn_case_sheets::CaseFiles;
use acn_num::NoMemory;
use std::alloc::Global;

/// The asked type and the files of a group.
#[derive(Drop)]
pub struct Asked {
    /// The name of its module.
    pub module: String,
    /// Its name.
    pub name: String,
    /// The files, in order.
    pub files: CaseFiles,
}

impl Asked {
    /// No type of no files.
    pub fn new(alloc: Global) -> Asked {
        Asked {
            module: String::new(alloc),
            name: String::new(alloc),
            files: CaseFiles::new(alloc),
        }
    }

    // Begins a group.
    fn begin(&mut self, alloc: Global, asked: &str) -> Result<bool, NoMemory> {
        match asked.split_once(".") {
            Some((module, name)) => {
                self.module = module.to_string(alloc)?;
                self.name = name.to_string(alloc)?;
                self.files = CaseFiles::new(alloc);
                Ok(true)
            }
            None => Ok(false),
        }
    }

    /// Takes a line that is no case. False comes where it isn't understood.
    pub fn take(&mut self, alloc: Global, line: &str) -> Result<bool, NoMemory> {
        match line.split_once(" ") {
            Some(("ask", asked)) => self.begin(alloc, asked),
            Some(("tree", asked)) => self.begin(alloc, asked),
            _ => self.files.take(alloc, line),
        }
    }
}
