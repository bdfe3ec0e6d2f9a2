//! What a line of a tree says.

use crate::building::{Building, Head, Role, What};
use acn_case_lines::{behind, leaf_of, of_word, set_of, sizing_of, small, text_of, word};
use acn_num::{Name, NoMemory, RangeSet, Row};
use acn_tree::{Body, ChoiceRule, Sizing, Test};
use std::alloc::Global;

fn role_of(words: &[&str]) -> Role {
    match word(words, 0) {
        "inserted" => Role::Inserted,
        "alternative" => Role::Alternative,
        "element" => Role::Element,
        _ => {
            if behind(words, "when").is_some() {
                Role::When
            } else if behind(words, "optional").is_some() {
                Role::Optional
            } else {
                Role::Component
            }
        }
    }
}

fn slot_word(word: &str) -> u32 {
    word.parse::<u32>().unwrap_or(0)
}

// A condition, as `0==1` or `0`.
fn test_of(word: &str) -> Test {
    match word.split_once("==") {
        Some((slot, value)) => Test::Equals(slot_word(slot), of_word(value)),
        None => Test::Flag(slot_word(word)),
    }
}

// The conditions behind the word `when`.
fn tests_of(alloc: Global, words: &[&str]) -> Result<Row<Test>, NoMemory> {
    let mut tests = Row::new(alloc);
    let from = behind(words, "when").unwrap_or(words.len());
    for word in words.get(from..).unwrap_or(&[]) {
        tests.push(test_of(*word))?;
    }
    Ok(tests)
}

// The slot of an inserted field stands behind its name, that of a component behind the word `slot`.
fn slot_of(role: Role, words: &[&str]) -> Option<u32> {
    match role {
        Role::Inserted => word(words, 2).parse::<u32>().ok(),
        _ => match behind(words, "slot") {
            Some(at) => Some(small(words, at)),
            None => None,
        },
    }
}

fn align_of(words: &[&str]) -> u32 {
    match behind(words, "align") {
        Some(at) => small(words, at),
        None => 1,
    }
}

fn head_of(alloc: Global, words: &[&str]) -> Result<Head, NoMemory> {
    let role = role_of(words);
    let tests = tests_of(alloc, words)?;
    let name = Name::copy(alloc, word(words, 1).as_bytes())?;
    Ok(Head {
        role,
        name,
        slot: slot_of(role, words),
        align: align_of(words),
        tests,
    })
}

// Adds the numbers of a set, of which 1,000 at most.
fn push_numbers(set: &RangeSet, numbers: &mut Row<u32>) -> Result<(), NoMemory> {
    for place in 0..1000u32 {
        match set.nth(u128::from(place)) {
            Some(number) => numbers.push(u32::try_from(number).unwrap_or(0))?,
            None => return Ok(()),
        }
    }
    Ok(())
}

// The slots of words, in order: `0`, or `0..255`.
fn homes_of(alloc: Global, words: &[&str]) -> Result<Row<u32>, NoMemory> {
    let mut homes = Row::new(alloc);
    let from = behind(words, "home").unwrap_or(words.len());
    for word in words.get(from..).unwrap_or(&[]) {
        if let Some(set) = set_of(alloc, *word)? {
            push_numbers(&set, &mut homes)?;
        }
    }
    Ok(homes)
}

fn rule_of(words: &[&str]) -> ChoiceRule {
    match word(words, 1) {
        "index" => ChoiceRule::Index(small(words, 2)),
        "item" => ChoiceRule::Item(small(words, 2)),
        _ => ChoiceRule::Tests,
    }
}

fn sized_what(sizing: Option<Sizing>, is_list: bool) -> Option<What> {
    match sizing {
        Some(sizing) => {
            if is_list {
                Some(What::List(sizing))
            } else {
                Some(What::Contained(sizing))
            }
        }
        None => None,
    }
}

// What a node with parts is, if it has parts.
fn what_of(alloc: Global, words: &[&str]) -> Result<Option<What>, NoMemory> {
    let rest = words.get(1..).unwrap_or(&[]);
    match word(words, 0) {
        "sequence" => Ok(Some(What::Sequence(homes_of(alloc, words)?))),
        "choice" => Ok(Some(What::Choice(rule_of(words)))),
        "list" => Ok(sized_what(sizing_of(alloc, rest)?, true)),
        "contained" => Ok(sized_what(sizing_of(alloc, rest)?, false)),
        _ => Ok(None),
    }
}

fn octets_of(sizing: Option<Sizing>) -> Option<Body> {
    match sizing {
        Some(sizing) => Some(Body::Octets(sizing)),
        None => None,
    }
}

fn bits_of(sizing: Option<Sizing>) -> Option<Body> {
    match sizing {
        Some(sizing) => Some(Body::Bits(sizing)),
        None => None,
    }
}

fn text_body(alloc: Global, words: &[&str]) -> Result<Option<Body>, NoMemory> {
    match text_of(alloc, words)? {
        Some(leaf) => Ok(Some(Body::Text(leaf))),
        None => Ok(None),
    }
}

fn number_body(alloc: Global, words: &[&str]) -> Result<Option<Body>, NoMemory> {
    match leaf_of(alloc, words)? {
        Some(leaf) => Ok(Some(Body::Num(leaf))),
        None => Ok(None),
    }
}

// A node without parts.
fn plain_of(alloc: Global, words: &[&str]) -> Result<Option<Body>, NoMemory> {
    let rest = words.get(1..).unwrap_or(&[]);
    match word(words, 0) {
        "octets" => Ok(octets_of(sizing_of(alloc, rest)?)),
        "bits" => Ok(bits_of(sizing_of(alloc, rest)?)),
        "text" => text_body(alloc, rest),
        _ => number_body(alloc, words),
    }
}

// A NULL with this number in its name.
fn null_line(alloc: Global, building: &mut Building, number: u32) -> Result<(), NoMemory> {
    let name = format!(in alloc; "n{number}")?;
    let front = ["component", name.as_str()];
    let head = head_of(alloc, &front)?;
    let body = plain_of(alloc, &["null", "0", "range", "0", "0"])?;
    building.add(alloc, head, body)
}

// So many NULLs in a SEQUENCE.
fn nulls(alloc: Global, building: &mut Building, head: Head, count: u32) -> Result<(), NoMemory> {
    building.begin(alloc, head, What::Sequence(Row::new(alloc)))?;
    for number in 0..count {
        null_line(alloc, building, number)?;
    }
    building.end(alloc)
}

fn node_line(
    alloc: Global,
    building: &mut Building,
    left: &str,
    right: &str,
) -> Result<(), NoMemory> {
    let front: Vec<&str> = left.split_whitespace().collect(alloc)?;
    let words: Vec<&str> = right.split_whitespace().collect(alloc)?;
    let head = head_of(alloc, front.as_slice())?;
    if word(words.as_slice(), 0) == "nulls" {
        return nulls(alloc, building, head, small(words.as_slice(), 1));
    }
    match what_of(alloc, words.as_slice())? {
        Some(what) => building.begin(alloc, head, what),
        None => building.add(alloc, head, plain_of(alloc, words.as_slice())?),
    }
}

/// Reads a line of a tree.
pub fn read_line(alloc: Global, building: &mut Building, line: &str) -> Result<(), NoMemory> {
    match line.trim().split_once(" : ") {
        Some((left, right)) => node_line(alloc, building, left, right),
        None => {
            if line.trim() == "end" {
                building.end(alloc)
            } else {
                building.is_not_understood();
                Ok(())
            }
        }
    }
}
