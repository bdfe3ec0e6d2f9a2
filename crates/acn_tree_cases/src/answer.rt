//! Answers to cases.

use crate::accepted::accepted;
use crate::compared::compared;
use crate::extreme::{extremes_in_words, extremes_of_lines};
use crate::packets::packets_told;
use crate::plan::plan_in_words;
use crate::trees::{draws_told, tree_told};
use crate::worked::work_told;
use acn_case_lines::{Answers, word};
use acn_case_trees::{Built, Sheet};
use acn_check::Checked;
use acn_num::{Boxed, NoMemory};
use acn_tree::Tree;
use std::alloc::Global;

// What cases ask.
#[derive(Clone, Copy, Drop)]
enum Asked {
    // Of a tree itself.
    Trees,
    // What is read and written by it.
    Packets,
    // What comes of values that are made.
    Work,
}

/// The tree that stands in the lines so far, and what the cases behind them ask.
#[derive(Drop)]
pub struct Group {
    sheet: Sheet,
    asked: Asked,
}

impl Group {
    /// No lines.
    pub fn new(alloc: Global) -> Group {
        Group {
            sheet: Sheet::new(alloc),
            asked: Asked::Trees,
        }
    }
}

// What a line says that the cases behind it ask.
fn asked_of(line: &str) -> Option<Asked> {
    match line {
        "ask trees" => Some(Asked::Trees),
        "ask packets" => Some(Asked::Packets),
        "ask work" => Some(Asked::Work),
        _ => None,
    }
}

// What is asked of a tree that is accepted.
fn checked_told(
    alloc: Global,
    asked: Asked,
    checked: &Checked,
    words: &[&str],
) -> Result<String, NoMemory> {
    match asked {
        Asked::Packets => packets_told(alloc, checked, words),
        Asked::Work => work_told(alloc, checked, words),
        Asked::Trees => match word(words, 0) {
            "plan" => plan_in_words(alloc, checked),
            "extremes" => extremes_in_words(alloc, checked, true),
            _ => extremes_in_words(alloc, checked, false),
        },
    }
}

// Whether the words ask of a tree that need not be accepted.
fn is_of_any_tree(asked: Asked, words: &[&str]) -> bool {
    match asked {
        Asked::Trees => !matches!(word(words, 0), "plan" | "extremes" | "extreme-bits"),
        Asked::Packets => false,
        Asked::Work => false,
    }
}

fn told(
    alloc: Global,
    asked: Asked,
    tree: Boxed<Tree>,
    words: &[&str],
) -> Result<String, NoMemory> {
    if is_of_any_tree(asked, words) {
        return tree_told(alloc, tree, words);
    }
    match accepted(alloc, tree)? {
        Some(checked) => checked_told(alloc, asked, checked.get(), words),
        None => Ok("not accepted".to_string(alloc)?),
    }
}

fn of_sheet(
    alloc: Global,
    sheet: &Sheet,
    asked: Asked,
    parts: &[&str],
    words: &[&str],
) -> Result<String, NoMemory> {
    match sheet.built(alloc, parts)? {
        Built::Tree(tree) => told(alloc, asked, tree, words),
        Built::NoTree => Ok("no tree".to_string(alloc)?),
        Built::Unknown => Ok("not understood".to_string(alloc)?),
    }
}

impl Answers for Group {
    fn answer(&mut self, alloc: Global, case: &str) -> Result<String, NoMemory> {
        let parts: Vec<&str> = case.split(";;").collect(alloc)?;
        let words: Vec<&str> = word(parts.as_slice(), 0).split_whitespace().collect(alloc)?;
        match word(words.as_slice(), 0) {
            "draw" => draws_told(alloc, words.get(1..).unwrap_or(&[])),
            "compare" => compared(alloc, &self.sheet, case),
            "extremes-of" => {
                let lines = case.trim().strip_prefix("extremes-of ").unwrap_or("");
                extremes_of_lines(alloc, lines)
            }
            _ => {
                let parts = parts.get(1..).unwrap_or(&[]);
                of_sheet(alloc, &self.sheet, self.asked, parts, words.as_slice())
            }
        }
    }

    fn take(&mut self, alloc: Global, line: &str) -> Result<bool, NoMemory> {
        match asked_of(line) {
            Some(asked) => self.asked = asked,
            None => self.sheet.take(alloc, line)?,
        }
        Ok(true)
    }
}
