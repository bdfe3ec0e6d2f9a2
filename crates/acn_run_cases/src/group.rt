//! What the cases of a group are about.

use crate::asked::Asked;
use crate::names::{scope_of, slot_of_names, take_fields};
use crate::paths::{Paths, paths_of, slot_of_path};
use crate::sheet::Sheet;
use crate::surveyed::survey_told;
use crate::trees::tree_told;
use acn_case_lines::Answers;
use acn_num::NoMemory;
use acn_params::Scope;
use std::alloc::Global;

/// What the cases of a group are about.
#[derive(Drop)]
pub enum Group {
    /// Files, and what the top call does with them.
    Runs(Sheet),
    /// A type of files, and the nodes that are to be made for it.
    Sources(Asked),
    /// A type of files, and its tree.
    Trees(Asked),
    /// Paths of fields, and of nodes that use them.
    Slots(Paths),
    /// Fields and parameters that have names.
    Names(Scope),
}

// The group that a line begins; none where it goes on with one.
fn begun(alloc: Global, line: &str) -> Result<Option<Group>, NoMemory> {
    let (word, words) = line.split_once(" ").unwrap_or((line, ""));
    match word {
        "sources" => Ok(Some(Group::Runs(Sheet::new(alloc)))),
        "ask" => Ok(Some(Group::Sources(Asked::new(alloc)))),
        "tree" => Ok(Some(Group::Trees(Asked::new(alloc)))),
        "paths" => Ok(Some(Group::Slots(paths_of(alloc, words)?))),
        "scope" => Ok(Some(Group::Names(scope_of(alloc, words)?))),
        _ => Ok(None),
    }
}

impl Answers for Group {
    fn answer(&mut self, alloc: Global, case: &str) -> Result<String, NoMemory> {
        match self {
            Group::Runs(sheet) => sheet.told(alloc, case),
            Group::Sources(asked) => survey_told(alloc, asked, case),
            Group::Trees(asked) => tree_told(alloc, asked, case),
            Group::Slots(paths) => slot_of_path(alloc, paths, case.trim()),
            Group::Names(scope) => slot_of_names(alloc, scope, case.trim()),
        }
    }

    fn take(&mut self, alloc: Global, line: &str) -> Result<bool, NoMemory> {
        let begun = begun(alloc, line)?;
        let begins = begun.is_some();
        if let Some(group) = begun {
            *self = group;
        }
        match self {
            Group::Runs(sheet) => Ok(begins || sheet.take(alloc, line)?),
            Group::Sources(asked) => asked.take(alloc, line),
            Group::Trees(asked) => asked.take(alloc, line),
            Group::Slots(_) => Ok(begins),
            Group::Names(scope) => Ok(begins || take_fields(alloc, scope, line)?),
        }
    }
}
