//! What is written for recordings, lines and space packets.

use crate::built::accepted;
use crate::outcome::outcome_in_words;
use crate::pieces::pieces_in_words;
use crate::routed::{Apids, add_each, routed_in_words};
use crate::setting::{Question, Setting, setting_of};
use acn_case_lines::{octets_in_words, octets_of, small, word};
use acn_case_trees::Sheet;
use acn_check::Checked;
use acn_explain::explain_all;
use acn_num::NoMemory;
use acn_outside::{MemSink, MemSource};
use acn_plan::compile;
use acn_route::{Routes, route_all};
use acn_stream::{StreamFault, decode_all, encode_all};
use acn_tree::items_named;
use std::alloc::Global;

// The most bytes that a case writes.
const ROOM: usize = 65_536;

// The numbers of calls that fail.
fn failing(alloc: Global, call: Option<u64>) -> Result<Vec<u64>, NoMemory> {
    let mut calls = Vec::new(alloc);
    match call {
        Some(call) => calls.push(call)?,
        None => {}
    }
    Ok(calls)
}

fn source(
    alloc: Global,
    setting: &Setting,
    piece: usize,
    bytes: &[u8],
) -> Result<MemSource, NoMemory> {
    let fail = failing(alloc, setting.input)?;
    let bytes = Vec::from_slice(alloc, bytes)?;
    Ok(MemSource::new(bytes, piece.max(1), fail))
}

fn sink(alloc: Global, setting: &Setting) -> Result<MemSink, NoMemory> {
    let fail = failing(alloc, setting.output)?;
    let room = vec![in alloc; 0u8; ROOM]?;
    Ok(MemSink::new(room, setting.room.max(1), fail))
}

// What the bytes are converted by.
#[derive(Clone, Copy)]
enum By<'a> {
    Tree(&'a Checked),
    Routes(&'a Routes),
}

// What comes of packets or of lines of a tree.
fn converted(
    alloc: Global,
    checked: &Checked,
    setting: &Setting,
    input: &mut MemSource,
    out: &mut MemSink,
) -> Result<u64, StreamFault> {
    if !items_named(checked.tree()) {
        return Err(StreamFault::NoMemory);
    }
    let Ok(plan) = compile(alloc, checked) else {
        return Err(StreamFault::NoMemory);
    };
    match setting.question {
        Question::Encode => encode_all(alloc, checked, &plan, input, out, setting.limit),
        Question::Explain => explain_all(alloc, checked, &plan, input, out, setting.limit),
        _ => decode_all(alloc, checked, &plan, input, out, setting.limit),
    }
}

// How it ended.
fn run(
    alloc: Global,
    by: By<'_>,
    setting: &Setting,
    input: &mut MemSource,
    out: &mut MemSink,
) -> Result<String, NoMemory> {
    match by {
        By::Tree(checked) => {
            let outcome = converted(alloc, checked, setting, input, out);
            outcome_in_words(alloc, &outcome)
        }
        By::Routes(routes) => {
            let outcome = route_all(alloc, routes, input, out, setting.limit);
            routed_in_words(alloc, &outcome)
        }
    }
}

// Text, with a bar for each line feed.
fn lines_in_words(alloc: Global, bytes: &[u8]) -> Result<String, NoMemory> {
    let text = String::from_utf8_lossy(alloc, bytes)?;
    let mut words = String::new(alloc);
    for line in text.as_str().split_inclusive("\n") {
        words.push_str(" ")?;
        match line.strip_suffix("\n") {
            Some(line) => {
                words.push_str(line)?;
                words.push_str(" |")?;
            }
            None => words.push_str(line)?,
        }
    }
    Ok(words)
}

fn octets_told(alloc: Global, bytes: &[u8]) -> Result<String, NoMemory> {
    if bytes.is_empty() {
        return Ok(String::new(alloc));
    }
    let words = octets_in_words(alloc, bytes)?;
    Ok(format!(in alloc; " {words}")?)
}

fn written(alloc: Global, question: Question, out: &MemSink) -> Result<String, NoMemory> {
    let Some(bytes) = out.bytes() else {
        return Ok(" too much".to_string(alloc)?);
    };
    match question {
        Question::Encode => octets_told(alloc, bytes),
        _ => lines_in_words(alloc, bytes),
    }
}

// The answer where a read gives at most so many bytes.
fn in_pieces(
    alloc: Global,
    by: By<'_>,
    setting: &Setting,
    piece: usize,
    bytes: &[u8],
) -> Result<String, NoMemory> {
    let mut input = source(alloc, setting, piece, bytes)?;
    let mut out = sink(alloc, setting)?;
    let ended = run(alloc, by, setting, &mut input, &mut out)?;
    let written = written(alloc, setting.question, &out)?;
    Ok(format!(in alloc; "{ended};{written}")?)
}

// The answer, which has to be the same for pieces of every size.
fn in_any_pieces(
    alloc: Global,
    by: By<'_>,
    setting: &Setting,
    bytes: &[u8],
) -> Result<String, NoMemory> {
    let whole = in_pieces(alloc, by, setting, bytes.len().max(1), bytes)?;
    for piece in 1..bytes.len().max(1) {
        let other = in_pieces(alloc, by, setting, piece, bytes)?;
        if other.as_str() != whole.as_str() {
            return Ok(format!(in alloc; "by {piece}: {other}")?);
        }
    }
    Ok(whole)
}

fn told(alloc: Global, by: By<'_>, setting: &Setting, bytes: &[u8]) -> Result<String, NoMemory> {
    match setting.piece {
        Some(piece) => in_pieces(alloc, by, setting, piece, bytes),
        None => in_any_pieces(alloc, by, setting, bytes),
    }
}

fn of_sheet(
    alloc: Global,
    sheet: &Sheet,
    parts: &[&str],
    setting: &Setting,
    bytes: &[u8],
) -> Result<String, NoMemory> {
    match accepted(alloc, sheet, parts)? {
        Ok(checked) => match setting.question {
            Question::Pieces => pieces_in_words(alloc, checked.get(), bytes),
            _ => told(alloc, By::Tree(checked.get()), setting, bytes),
        },
        Err(why) => Ok(why.to_string(alloc)?),
    }
}

// The identifiers of a case: all, or two numbers.
fn apids_of(words: &[&str]) -> Apids {
    match word(words, 1) {
        "all" => Apids::All,
        _ => Apids::Two(small(words, 1), small(words, 2)),
    }
}

// Where application process identifiers have the tree.
fn of_routes(
    alloc: Global,
    sheet: &Sheet,
    parts: &[&str],
    setting: &Setting,
    apids: Apids,
    bytes: &[u8],
) -> Result<String, NoMemory> {
    let mut routes = Routes::new(alloc);
    match add_each(alloc, sheet, parts, &mut routes, apids)? {
        None => told(alloc, By::Routes(&routes), setting, bytes),
        Some(why) => Ok(why),
    }
}

/// How the conversion of a case ended, and what was written.
pub fn stream_told(
    alloc: Global,
    sheet: &Sheet,
    parts: &[&str],
    case: &str,
) -> Result<String, NoMemory> {
    let (question, bytes) = case.split_once(" :").unwrap_or(("", ""));
    let words: Vec<&str> = question.split_whitespace().collect(alloc)?;
    let octets: Vec<&str> = bytes.split_whitespace().collect(alloc)?;
    let bytes = octets_of(alloc, octets.as_slice())?;
    match setting_of(words.as_slice()) {
        Some(setting) => match setting.question {
            Question::Route => {
                let apids = apids_of(words.as_slice());
                of_routes(alloc, sheet, parts, &setting, apids, bytes.as_slice())
            }
            _ => of_sheet(alloc, sheet, parts, &setting, bytes.as_slice()),
        },
        None => Ok("not understood".to_string(alloc)?),
    }
}
