//! The lines of a tree.

use crate::building::{Building, Built};
use crate::notation::read_line;
use crate::parts::{filled, numbered};
use acn_case_lines::small;
use acn_num::NoMemory;
use std::alloc::Global;

/// The lines of the tree that is asked about.
#[derive(Drop)]
pub struct Sheet {
    lines: Vec<String>,
}

// Reads each of the lines between bars, with this number.
fn read_turn(
    alloc: Global,
    building: &mut Building,
    pattern: &str,
    number: u32,
) -> Result<(), NoMemory> {
    for line in pattern.split(" | ") {
        let line = numbered(alloc, line, number)?;
        read_line(alloc, building, line.as_str())?;
    }
    Ok(())
}

// Reads the lines of `times`, which stand behind its two numbers.
fn read_times(alloc: Global, building: &mut Building, line: &str) -> Result<(), NoMemory> {
    let words: Vec<&str> = line.splitn(4, " ").collect(alloc)?;
    let [_, _, _, pattern] = words.as_slice() else {
        building.is_not_understood();
        return Ok(());
    };
    for number in small(words.as_slice(), 1)..small(words.as_slice(), 2) {
        read_turn(alloc, building, *pattern, number)?;
    }
    Ok(())
}

fn read(alloc: Global, building: &mut Building, line: &str) -> Result<(), NoMemory> {
    if line.starts_with("times ") {
        read_times(alloc, building, line)
    } else {
        read_line(alloc, building, line)
    }
}

impl Sheet {
    /// No lines.
    pub fn new(alloc: Global) -> Sheet {
        Sheet {
            lines: Vec::new(alloc),
        }
    }

    /// Takes a line, of which the one of a root begins a tree.
    pub fn take(&mut self, alloc: Global, line: &str) -> Result<(), NoMemory> {
        if line.starts_with("root ") {
            self.lines = Vec::new(alloc);
        }
        self.lines.push(line.trim().to_string(alloc)?)?;
        Ok(())
    }

    /// The tree of the lines, with the parts in their places.
    pub fn built(&self, alloc: Global, parts: &[&str]) -> Result<Built, NoMemory> {
        let mut building = Building::new(alloc);
        for line in self.lines.iter() {
            match filled(alloc, line.as_str(), parts)? {
                Some(text) => read(alloc, &mut building, text.as_str())?,
                None => {}
            }
        }
        Ok(building.built())
    }
}
