//! What cases are about.

use crate::asks::{asks, asks_fixed};
use crate::bits::about_octets;
use crate::heard::heard;
use crate::lists::about_list;
use crate::numbers::about_number;
use crate::sets::about_set;
use crate::texts::{about_sized_text, about_text};
use crate::widths::about_width;
use acn_case_lines::{Answers, leaf_of, octets_of, text_of, word};
use acn_grammar::{Body, Node, NumLeaf, SizeRule, TextLeaf};
use acn_num::{Boxed, Name, NoMemory};
use acn_tree::Tree;
use std::alloc::Global;

/// What cases are about.
#[derive(Drop)]
pub enum Subject {
    /// Nothing that is known.
    Nothing,
    /// A leaf of numbers.
    Number(Boxed<NumLeaf>),
    /// A tree that is a text.
    Text(Boxed<Tree>),
    /// A text whose size a slot says.
    SizedText(Boxed<TextLeaf>),
    /// Octets.
    Octets(Vec<u8>),
}

// The tree of a text alone, if its leaf keeps its rules.
fn tree_of(alloc: Global, leaf: TextLeaf) -> Result<Subject, NoMemory> {
    let name = Name::copy(alloc, b"T")?;
    let node = Node {
        align: 1,
        body: Body::Text(leaf),
    };
    match Tree::form(name, node) {
        Ok(tree) => Ok(Subject::Text(Boxed::new(alloc, tree)?)),
        Err(_) => Ok(Subject::Nothing),
    }
}

fn text_subject(alloc: Global, words: &[&str]) -> Result<Subject, NoMemory> {
    match text_of(alloc, words)? {
        Some(leaf) => {
            if matches!(&leaf.sized.rule, SizeRule::Slot(_)) {
                Ok(Subject::SizedText(Boxed::new(alloc, leaf)?))
            } else {
                tree_of(alloc, leaf)
            }
        }
        None => Ok(Subject::Nothing),
    }
}

fn number_subject(alloc: Global, words: &[&str]) -> Result<Subject, NoMemory> {
    match leaf_of(alloc, words)? {
        Some(leaf) => Ok(Subject::Number(Boxed::new(alloc, leaf)?)),
        None => Ok(Subject::Nothing),
    }
}

// What a line that is no case says.
fn subject_of(alloc: Global, words: &[&str]) -> Result<Subject, NoMemory> {
    let rest = words.get(1..).unwrap_or(&[]);
    match word(words, 0) {
        "leaf" => number_subject(alloc, rest),
        "text" => text_subject(alloc, rest),
        "octets" => Ok(Subject::Octets(octets_of(alloc, rest)?)),
        _ => Ok(Subject::Nothing),
    }
}

// The answer to a question about a width, a list or a set.
fn about_number_or_list(alloc: Global, question: &str, words: &[&str]) -> Result<String, NoMemory> {
    if let Some(answer) = about_width(alloc, question, words)? {
        return Ok(answer);
    }
    match about_list(alloc, question, words)? {
        Some(answer) => Ok(answer),
        None => about_set(alloc, question, words),
    }
}

fn about_nothing(alloc: Global, question: &str, words: &[&str]) -> Result<String, NoMemory> {
    match question {
        "asks" => asks(alloc, words),
        "asks-fixed" => asks_fixed(alloc, words),
        "heard" => heard(alloc, words),
        _ => about_number_or_list(alloc, question, words),
    }
}

impl Answers for Subject {
    fn answer(&mut self, alloc: Global, case: &str) -> Result<String, NoMemory> {
        let words: Vec<&str> = case.split_whitespace().collect(alloc)?;
        let question = word(words.as_slice(), 0);
        let rest = words.get(1..).unwrap_or(&[]);
        match self {
            Subject::Number(leaf) => about_number(alloc, leaf.get(), question, rest),
            Subject::Text(tree) => about_text(alloc, tree.get(), question, rest),
            Subject::SizedText(leaf) => about_sized_text(alloc, leaf.get(), question, rest),
            Subject::Octets(octets) => about_octets(alloc, octets.as_slice(), question, rest),
            Subject::Nothing => about_nothing(alloc, question, rest),
        }
    }

    fn take(&mut self, alloc: Global, line: &str) -> Result<bool, NoMemory> {
        let words: Vec<&str> = line.split_whitespace().collect(alloc)?;
        *self = subject_of(alloc, words.as_slice())?;
        Ok(true)
    }
}
