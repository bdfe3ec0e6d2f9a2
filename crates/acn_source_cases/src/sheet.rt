//! The question and the files of a group.

use crate::answer::answer;
use acn_case_lines::Answers;
use acn_case_sheets::CaseFiles;
use acn_num::NoMemory;
use std::alloc::Global;

/// What is asked.
#[derive(Clone, Copy, Drop)]
pub enum Question {
    /// The tokens of the first file.
    Tokens,
    /// The fault of the first file that isn't read, with the number of its token, or `Ok`.
    Read,
    /// The first file that is refused and its fault, with places in bytes, or `Ok`.
    Files,
    /// What a file of a name holds.
    Kind,
    /// The tree of the first file, printed as a text.
    Print,
    /// Whether the tree of the first file has the tokens of its text.
    Kept,
    /// The fault of the names, or `Ok`.
    Names,
    /// The types that no other type refers to.
    Roots,
    /// The place of a type of a module, by both names.
    Find,
    /// The place of a type, by the number of a module and a name in it.
    Lookup,
    /// The value to which an identifier leads, by the number of a module and the name in it.
    Value,
    /// The name of the ACN entry at a place.
    Entry,
    /// How many lines a table has.
    Table,
    /// What stands along the chain of the type of the value t of the first module.
    Chain,
    /// The numbers of the type of the value t of the first module.
    Numbers,
    /// How many numbers these are, and in how many ranges.
    Count,
    /// Its sizes.
    Sizes,
    /// Its characters.
    Characters,
    /// Its sizes and characters together.
    Text,
    /// The sites of the type T of the module M, or the first that can't be made.
    Sites,
    /// The way of the first node of a graph that leads to itself.
    Ring,
    /// The same in a long chain.
    LongRing,
    /// What files, inputs and outputs do.
    Outside,
}

/// The question and the files of a group.
#[derive(Drop)]
pub struct Sheet {
    /// What is asked.
    pub question: Question,
    /// The files, in order.
    pub files: CaseFiles,
}

fn question_of(word: &str) -> Option<Question> {
    match word {
        "tokens" => Some(Question::Tokens),
        "read" => Some(Question::Read),
        "files" => Some(Question::Files),
        "kind" => Some(Question::Kind),
        "print" => Some(Question::Print),
        "kept" => Some(Question::Kept),
        "names" => Some(Question::Names),
        "roots" => Some(Question::Roots),
        "find" => Some(Question::Find),
        "lookup" => Some(Question::Lookup),
        _ => more_questions_of(word),
    }
}

fn more_questions_of(word: &str) -> Option<Question> {
    match word {
        "value" => Some(Question::Value),
        "entry" => Some(Question::Entry),
        "table" => Some(Question::Table),
        "chain" => Some(Question::Chain),
        "numbers" => Some(Question::Numbers),
        "count" => Some(Question::Count),
        "sizes" => Some(Question::Sizes),
        "characters" => Some(Question::Characters),
        "sites" => Some(Question::Sites),
        "text" => Some(Question::Text),
        "ring" => Some(Question::Ring),
        "long-ring" => Some(Question::LongRing),
        "outside" => Some(Question::Outside),
        _ => None,
    }
}

impl Sheet {
    /// No files.
    pub fn new(alloc: Global) -> Sheet {
        Sheet {
            question: Question::Names,
            files: CaseFiles::new(alloc),
        }
    }

    // Begins a group.
    fn ask(&mut self, alloc: Global, word: &str) -> bool {
        match question_of(word) {
            Some(question) => {
                self.question = question;
                self.files = CaseFiles::new(alloc);
                true
            }
            None => false,
        }
    }
}

impl Answers for Sheet {
    fn answer(&mut self, alloc: Global, case: &str) -> Result<String, NoMemory> {
        answer(alloc, self, case)
    }

    fn take(&mut self, alloc: Global, line: &str) -> Result<bool, NoMemory> {
        match line.strip_prefix("ask ") {
            Some(word) => Ok(self.ask(alloc, word)),
            None => self.files.take(alloc, line),
        }
    }
}
