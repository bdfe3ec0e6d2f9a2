//! Answers to cases.

use crate::built::tree_of;
use crate::json::json_told;
use crate::reports::report_told;
use crate::streams::stream_told;
use acn_case_lines::{Answers, word};
use acn_case_trees::Sheet;
use acn_num::NoMemory;
use std::alloc::Global;

// What cases ask.
#[derive(Clone, Copy, Drop)]
enum Asked {
    // What is written for recordings, lines and space packets.
    Streams,
    // Which value a line of JSON gives, and which line a value has.
    Json,
    // What is printed of a tree, and of what doesn't meet it.
    Reports,
}

/// The tree that stands in the lines so far, and what the cases behind them ask.
#[derive(Drop)]
pub struct Group {
    sheet: Sheet,
    asked: Asked,
}

impl Group {
    /// No lines.
    pub fn new(alloc: Global) -> Group {
        Group {
            sheet: Sheet::new(alloc),
            asked: Asked::Streams,
        }
    }
}

// What a line says that the cases behind it ask.
fn asked_of(line: &str) -> Option<Asked> {
    match line {
        "ask streams" => Some(Asked::Streams),
        "ask json" => Some(Asked::Json),
        "ask reports" => Some(Asked::Reports),
        _ => None,
    }
}

fn of_line(alloc: Global, sheet: &Sheet, parts: &[&str], case: &str) -> Result<String, NoMemory> {
    match tree_of(alloc, sheet, parts)? {
        Ok(tree) => json_told(alloc, tree.get(), case),
        Err(why) => Ok(why.to_string(alloc)?),
    }
}

fn of_report(alloc: Global, sheet: &Sheet, parts: &[&str], case: &str) -> Result<String, NoMemory> {
    match tree_of(alloc, sheet, parts)? {
        Ok(tree) => report_told(alloc, tree, case),
        Err(why) => Ok(why.to_string(alloc)?),
    }
}

impl Answers for Group {
    fn answer(&mut self, alloc: Global, case: &str) -> Result<String, NoMemory> {
        let parts: Vec<&str> = case.split(";;").collect(alloc)?;
        let case = word(parts.as_slice(), 0);
        let parts = parts.get(1..).unwrap_or(&[]);
        match self.asked {
            Asked::Streams => stream_told(alloc, &self.sheet, parts, case),
            Asked::Json => of_line(alloc, &self.sheet, parts, case.trim()),
            Asked::Reports => of_report(alloc, &self.sheet, parts, case),
        }
    }

    fn take(&mut self, alloc: Global, line: &str) -> Result<bool, NoMemory> {
        match asked_of(line) {
            Some(asked) => self.asked = asked,
            None => self.sheet.take(alloc, line)?,
        }
        Ok(true)
    }
}
