//! What is printed of trees, packets, values and lines.

use crate::check_words::check_fault_of;
use crate::printed::{output, shown};
use crate::words::{failure_of, path_of, unfit_of};
use acn_case_lines::{wide, word};
use acn_check::{Checked, check};
use acn_json::{JsonFault, MOST_JSON_BYTES, from_line};
use acn_json_report::put_json_fault;
use acn_layout::put_layout;
use acn_num::{Boxed, NoMemory};
use acn_report::{
    put_bounds, put_check_fault, put_empty_packet, put_fault, put_input_too_long,
    put_line_too_long, put_packet_fault, put_path, put_unfit,
};
use acn_tree::{CheckFault, Fault, Tree, Unfit, Value};
use std::alloc::Global;

fn not_understood(alloc: Global) -> Result<String, NoMemory> {
    Ok("not understood".to_string(alloc)?)
}

fn fault_shown(alloc: Global, tree: &Tree, fault: &CheckFault) -> Result<String, NoMemory> {
    let mut out = output(alloc, Vec::new(alloc))?;
    let printed = put_check_fault(tree, fault, &mut out);
    shown(alloc, &out, printed)
}

fn layout_shown(alloc: Global, checked: &Checked) -> Result<String, NoMemory> {
    let mut out = output(alloc, Vec::new(alloc))?;
    let printed = put_layout(checked, &mut out);
    shown(alloc, &out, printed)
}

fn bounds_shown(alloc: Global, checked: &Checked) -> Result<String, NoMemory> {
    let mut out = output(alloc, Vec::new(alloc))?;
    let printed = put_bounds(checked, &mut out);
    shown(alloc, &out, printed)
}

fn of_checked(alloc: Global, checked: &Checked, question: &str) -> Result<String, NoMemory> {
    match question {
        "layout" => layout_shown(alloc, checked),
        "bounds" => bounds_shown(alloc, checked),
        _ => Ok("Ok".to_string(alloc)?),
    }
}

// What the checker answers, and what is printed of an accepted tree.
fn judged(alloc: Global, tree: Boxed<Tree>, question: &str) -> Result<String, NoMemory> {
    match check(alloc, tree.into_inner()) {
        Ok(checked) => of_checked(alloc, &checked, question),
        Err((tree, fault)) => fault_shown(alloc, &tree, &fault),
    }
}

fn named_fault(alloc: Global, tree: &Tree, words: &[&str]) -> Result<String, NoMemory> {
    match check_fault_of(alloc, words)? {
        Some(fault) => fault_shown(alloc, tree, &fault),
        None => not_understood(alloc),
    }
}

fn packet_shown(
    alloc: Global,
    tree: &Tree,
    number: u64,
    fault: &Fault,
) -> Result<String, NoMemory> {
    let mut out = output(alloc, Vec::new(alloc))?;
    let printed = put_packet_fault(tree, number, fault, &mut out);
    shown(alloc, &out, printed)
}

fn packet(alloc: Global, tree: &Tree, words: &[&str]) -> Result<String, NoMemory> {
    match failure_of(words.get(1..).unwrap_or(&[])) {
        Some(fault) => packet_shown(alloc, tree, wide(words, 0), &fault),
        None => not_understood(alloc),
    }
}

fn place_shown(alloc: Global, tree: &Tree, fault: &Fault) -> Result<String, NoMemory> {
    let mut out = output(alloc, Vec::new(alloc))?;
    let printed = put_fault(tree, fault, &mut out);
    shown(alloc, &out, printed)
}

fn place(alloc: Global, tree: &Tree, words: &[&str]) -> Result<String, NoMemory> {
    match failure_of(words) {
        Some(fault) => place_shown(alloc, tree, &fault),
        None => not_understood(alloc),
    }
}

fn unfit_shown(alloc: Global, tree: &Tree, number: u64, unfit: &Unfit) -> Result<String, NoMemory> {
    let mut out = output(alloc, Vec::new(alloc))?;
    let printed = put_unfit(tree, number, unfit, &mut out);
    shown(alloc, &out, printed)
}

fn refused(alloc: Global, tree: &Tree, words: &[&str]) -> Result<String, NoMemory> {
    match unfit_of(words.get(1..).unwrap_or(&[])) {
        Some(unfit) => unfit_shown(alloc, tree, wide(words, 0), &unfit),
        None => not_understood(alloc),
    }
}

fn json_shown(
    alloc: Global,
    tree: &Tree,
    number: u64,
    fault: &JsonFault,
) -> Result<String, NoMemory> {
    let mut out = output(alloc, Vec::new(alloc))?;
    let printed = put_json_fault(tree, number, fault, &mut out);
    shown(alloc, &out, printed)
}

// A line that gives a value has no fault.
fn given(alloc: Global, value: &Value) -> Result<String, NoMemory> {
    let _value = value;
    Ok("a value".to_string(alloc)?)
}

// The first fault of a line of JSON, behind its number.
fn json(alloc: Global, tree: &Tree, words: &[&str]) -> Result<String, NoMemory> {
    let line = word(words, 1).as_bytes();
    if line.len() > MOST_JSON_BYTES {
        return not_understood(alloc);
    }
    match from_line(alloc, tree, line) {
        Ok(value) => given(alloc, &value),
        Err(fault) => json_shown(alloc, tree, wide(words, 0), &fault),
    }
}

fn empty(alloc: Global, tree: &Tree) -> Result<String, NoMemory> {
    let mut out = output(alloc, Vec::new(alloc))?;
    let printed = put_empty_packet(tree, &mut out);
    shown(alloc, &out, printed)
}

fn long_line(alloc: Global, number: u64) -> Result<String, NoMemory> {
    let mut out = output(alloc, Vec::new(alloc))?;
    let printed = put_line_too_long(number, &mut out);
    shown(alloc, &out, printed)
}

fn long_input(alloc: Global) -> Result<String, NoMemory> {
    let mut out = output(alloc, Vec::new(alloc))?;
    let printed = put_input_too_long(&mut out);
    shown(alloc, &out, printed)
}

// A path, printed to an output of which these writes fail.
fn path(alloc: Global, tree: &Tree, fail: Vec<u64>, text: &str) -> Result<String, NoMemory> {
    let mut out = output(alloc, fail)?;
    let printed = put_path(tree, &path_of(text), &mut out);
    shown(alloc, &out, printed)
}

fn broken(alloc: Global, tree: &Tree, words: &[&str]) -> Result<String, NoMemory> {
    let mut fail = Vec::new(alloc);
    fail.push(wide(words, 0))?;
    path(alloc, tree, fail, word(words, 1))
}

// What is printed of a tree, which need not be accepted.
fn of_tree(alloc: Global, tree: &Tree, words: &[&str]) -> Result<String, NoMemory> {
    let rest = words.get(1..).unwrap_or(&[]);
    match word(words, 0) {
        "fault" => named_fault(alloc, tree, rest),
        "packet" => packet(alloc, tree, rest),
        "place" => place(alloc, tree, rest),
        "unfit" => refused(alloc, tree, rest),
        "json" => json(alloc, tree, rest),
        "json-no-memory" => json_shown(alloc, tree, 1, &JsonFault::NoMemory),
        "empty" => empty(alloc, tree),
        "long-line" => long_line(alloc, wide(rest, 0)),
        "long-input" => long_input(alloc),
        "path" => path(alloc, tree, Vec::new(alloc), word(rest, 0)),
        "broken" => broken(alloc, tree, rest),
        _ => not_understood(alloc),
    }
}

/// What is printed for a question of a tree.
pub fn report_told(alloc: Global, tree: Boxed<Tree>, case: &str) -> Result<String, NoMemory> {
    let words: Vec<&str> = case.split_whitespace().collect(alloc)?;
    match word(words.as_slice(), 0) {
        "check" => judged(alloc, tree, "check"),
        "layout" => judged(alloc, tree, "layout"),
        "bounds" => judged(alloc, tree, "bounds"),
        _ => of_tree(alloc, tree.get(), words.as_slice()),
    }
}
