//! Answers to cases.

use crate::input::{input_of, times_of};
use crate::outputs::taken_in_words;
use crate::screen::{Screen, Steps};
use crate::setting::{Setting, setting_of};
use crate::sheet::Sheet;
use acn_advice::{Heard, Recalled};
use acn_advisor::advise;
use acn_case_lines::word;
use acn_case_sheets::{Trouble, parts_of};
use acn_num::NoMemory;
use acn_outside::{MemFiles, MemSink, MemSource};
use acn_progress::{Cleared, Progress, Watched, Way, way_of};
use acn_run::run_watched;
use acn_words::question_in;
use std::alloc::Global;

// The most bytes that an output keeps.
const ROOM: usize = 16_384;

// The most bytes that a long output keeps.
const LONG_ROOM: usize = 500_000;

// The most bytes that are given or taken at once, where nothing is said.
const WHOLE: usize = 1_000_000;

// A case.
#[derive(Drop)]
struct Case<'a> {
    sheet: &'a Sheet,
    hints: bool,
    way: Option<Way>,
    words: Vec<String>,
    input: Vec<u8>,
    parts: Vec<&'a str>,
}

// The numbers of calls that fail.
fn failing(alloc: Global, call: Option<u64>) -> Result<Vec<u64>, NoMemory> {
    let mut calls = Vec::new(alloc);
    match call {
        Some(call) => calls.push(call)?,
        None => {}
    }
    Ok(calls)
}

fn sink(alloc: Global, setting: &Setting, call: Option<u64>) -> Result<MemSink, NoMemory> {
    let fail = failing(alloc, call)?;
    let size = if setting.long { LONG_ROOM } else { ROOM };
    let room = vec![in alloc; 0u8; size]?;
    Ok(MemSink::new(room, setting.room.unwrap_or(WHOLE).max(1), fail))
}

fn source(alloc: Global, setting: &Setting, bytes: &[u8]) -> Result<MemSource, NoMemory> {
    let fail = failing(alloc, setting.input)?;
    let bytes = Vec::from_slice(alloc, bytes)?;
    Ok(MemSource::new(bytes, setting.piece.unwrap_or(WHOLE).max(1), fail))
}

fn told(alloc: Global, out: &MemSink, group: Option<usize>) -> Result<String, NoMemory> {
    match out.bytes() {
        Some(bytes) => taken_in_words(alloc, bytes, group),
        None => Ok(" too much".to_string(alloc)?),
    }
}

// The octets of a group, where octets are written.
fn group_of(words: &[String], setting: &Setting) -> Option<usize> {
    match words.first() {
        Some(word) if word.as_str() == "encode" => Some(setting.group.unwrap_or(WHOLE)),
        _ => None,
    }
}

fn files_of(alloc: Global, case: &Case<'_>, setting: &Setting) -> Result<MemFiles, Trouble> {
    let parts = case.parts.as_slice().get(1..).unwrap_or(&[]);
    let fail = failing(alloc, setting.file)?;
    case.sheet.in_memory(alloc, parts, fail)
}

// What the outputs took, and what was printed of how far the run was.
fn said(
    alloc: Global,
    status: u8,
    written: &str,
    errors: &str,
    screen: &Screen,
) -> Result<String, Trouble> {
    let shown = screen.in_words()?;
    if shown.is_empty() {
        return Ok(format!(in alloc; "{status};{written};{errors}")?);
    }
    Ok(format!(in alloc; "{status};{written};{errors}; {}", shown.as_str())?)
}

// An input and both outputs.
#[derive(Drop)]
struct Devices {
    input: MemSource,
    out: MemSink,
    err: MemSink,
}

fn devices_of(alloc: Global, case: &Case<'_>, setting: &Setting) -> Result<Devices, NoMemory> {
    Ok(Devices {
        input: source(alloc, setting, case.input.as_slice())?,
        out: sink(alloc, setting, setting.output)?,
        err: sink(alloc, setting, setting.errors)?,
    })
}

// What a run answers, and both outputs behind it.
fn ran(
    alloc: Global,
    case: &Case<'_>,
    files: &mut MemFiles,
    devices: Devices,
    clock: &Steps,
    screen: &Screen,
) -> (u8, MemSink, MemSink) {
    let progress = Progress::new(alloc, clock, screen, case.way);
    let input = Watched::new(devices.input, &progress);
    let mut input = Recalled::new(alloc, input, case.hints);
    let mut out = Watched::new(devices.out, &progress);
    let err = Cleared::new(devices.err, &progress);
    let mut err = Heard::new(alloc, err);
    let status = run_watched(
        alloc,
        &case.words,
        &mut *files,
        &mut input,
        &mut out,
        &mut err,
        &progress,
    );
    progress.clear();
    let (mut err, line) = err.into_parts();
    if case.hints {
        advise(
            alloc,
            &case.words,
            status,
            &line,
            input.kept(),
            files,
            &mut err,
        );
    }
    (status, out.into_device(), err.into_device())
}

// The answer to one run.
fn once(alloc: Global, case: &Case<'_>, setting: &Setting) -> Result<String, Trouble> {
    let mut files = files_of(alloc, case, setting)?;
    let devices = devices_of(alloc, case, setting)?;
    let clock = Steps::new(setting.seconds.unwrap_or(0));
    let screen = Screen::new(alloc);
    let (status, out, err) = ran(alloc, case, &mut files, devices, &clock, &screen);
    let group = group_of(case.words.as_slice(), setting);
    let written = told(alloc, &out, group)?;
    let errors = told(alloc, &err, None)?;
    said(alloc, status, written.as_str(), errors.as_str(), &screen)
}

// The answer of another run, which has to be the same.
fn again(
    alloc: Global,
    case: &Case<'_>,
    setting: &Setting,
    piece: usize,
    first: String,
) -> Result<String, Trouble> {
    let other = once(alloc, case, &setting.in_pieces(piece, piece))?;
    if other.as_str() == first.as_str() {
        return Ok(first);
    }
    Ok(format!(in alloc; "{first} by {piece}: {other}")?)
}

// What is answered to words before anything is read, or `none`.
fn question_told(alloc: Global, words: &[String]) -> Result<String, NoMemory> {
    match question_in(words) {
        Some(question) => {
            let written = taken_in_words(alloc, question.text().as_bytes(), None)?;
            Ok(format!(in alloc; "0;{written};")?)
        }
        None => Ok("none".to_string(alloc)?),
    }
}

fn of_case(alloc: Global, case: &Case<'_>, setting: &Setting) -> Result<String, Trouble> {
    let first = once(alloc, case, setting)?;
    if setting.is_single() {
        return Ok(first);
    }
    let mut said = again(alloc, case, setting, 1, first)?;
    if setting.each {
        for piece in 2..case.input.len() {
            said = again(alloc, case, setting, piece, said)?;
        }
    }
    Ok(said)
}

fn put_word(alloc: Global, word: &str, times: u32, all: &mut Vec<String>) -> Result<(), NoMemory> {
    for _ in 0..times {
        all.push(word.to_string(alloc)?)?;
    }
    Ok(())
}

fn words_of(alloc: Global, text: &str) -> Result<Vec<String>, NoMemory> {
    let mut all = Vec::new(alloc);
    let mut times = 1;
    for word in text.split_whitespace() {
        match times_of(word) {
            Some(count) => times = count,
            None => {
                put_word(alloc, word, times, &mut all)?;
                times = 1;
            }
        }
    }
    Ok(all)
}

// Whether a word stands in front, and what stands behind it.
fn behind<'a>(words: &'a str, word: &str) -> (bool, &'a str) {
    match words.trim_start().strip_prefix(word) {
        Some(behind) => (true, behind),
        None => (false, words),
    }
}

/// The answer to a case.
pub fn answer(alloc: Global, sheet: &Sheet, case: &str) -> Result<String, Trouble> {
    let parts = parts_of(alloc, case)?;
    let question = word(parts.as_slice(), 0);
    let (words, rest) = question.split_once(" :").unwrap_or((question, ""));
    if let Some(words) = words.strip_prefix("acn ") {
        return Ok(question_told(alloc, words_of(alloc, words)?.as_slice())?);
    }
    let (hints, words) = behind(words, "--hints");
    let (progress, words) = behind(words, "--progress");
    let (input, settings) = rest.split_once(" :").unwrap_or((rest, ""));
    let settings: Vec<&str> = settings.split_whitespace().collect(alloc)?;
    let setting = setting_of(settings.as_slice());
    let words = words_of(alloc, words)?;
    let case = Case {
        sheet,
        hints,
        way: if progress { way_of(&words) } else { None },
        words,
        input: input_of(alloc, input)?,
        parts,
    };
    of_case(alloc, &case, &setting)
}
