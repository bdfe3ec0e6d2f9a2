//! What files, inputs and outputs do.

ghost use Rattle.std.specs.Prelude.{IsErrOf, OnErr};

use acn_case_lines::word;
use acn_num::{MOST_FILE_BYTES, Name, NoMemory};
use acn_outside::{
    Failed, Files, MemFiles, MemSink, MemSource, Sink, Source, StdError, StdInput, StdOutput,
    SureFiles, SureSink, SureSource, WholeFault, read_whole, write_all,
};
use std::alloc::Global;
use std::fmt::Display;
use std::io;

// An output of the system that takes so many bytes at once, at most.
#[derive(Drop)]
struct Taker {
    most: usize,
}

impl Print for Taker {
    fn print<D: Display + Drop>(&self, _: D) -> io::Result<()> {
        Ok(())
    }

    fn println<D: Display + Drop>(&self, _: D) -> io::Result<()> {
        Ok(())
    }

    fn write_all(&self, _: &[u8]) -> io::Result<()> {
        Ok(())
    }

    fn write_some(&self, from: &[u8]) -> io::Result<usize> {
        Ok(from.len().min(self.most))
    }
}

// The bytes of a word; `-` stands for none.
fn text_of(text: &str) -> &[u8] {
    if text == "-" { &[] } else { text.as_bytes() }
}

fn bytes_of(alloc: Global, text: &str) -> Result<Vec<u8>, NoMemory> {
    Ok(Vec::from_slice(alloc, text_of(text))?)
}

fn count_of(words: &[&str], at: usize) -> usize {
    word(words, at)
        .parse::<usize>()
        .unwrap_or(0)
        .min(MOST_FILE_BYTES + 1)
}

// The number of the call that fails; none where the word is no number.
fn fails(alloc: Global, word: &str) -> Result<Vec<u64>, NoMemory> {
    let mut calls = Vec::new(alloc);
    if let Some(call) = word.parse::<u64>().ok() {
        calls.push(call)?;
    }
    Ok(calls)
}

// Adds a word, with a space in front of it where it isn't the first.
fn put(word: &str, all: &mut String) -> Result<(), NoMemory> {
    let space = if all.is_empty() { "" } else { " " };
    Ok(write!(all, "{space}{word}")?)
}

// Adds bytes, or `-` where there are none.
fn put_bytes(alloc: Global, bytes: &[u8], all: &mut String) -> Result<(), NoMemory> {
    if bytes.is_empty() {
        return put("-", all);
    }
    put(String::from_utf8_lossy(alloc, bytes)?.as_str(), all)
}

// Adds what a read of so many bytes into the piece gave.
fn put_read(
    alloc: Global,
    given: Result<usize, Failed>,
    piece: &[u8],
    all: &mut String,
) -> Result<(), NoMemory> {
    match given {
        Ok(count) => put_bytes(alloc, piece.get(..count).unwrap_or(&[]), all),
        Err(_) => put("failed", all),
    }
}

// What reads of so many bytes each give.
fn reads<S: Source>(alloc: Global, source: &mut S, counts: &[&str]) -> Result<String, NoMemory> {
    let mut all = String::new(alloc);
    for at in 0..counts.len() {
        let mut piece = vec![in alloc; 0u8; count_of(counts, at)]?;
        let given = source.read(&mut piece);
        put_read(alloc, given, &piece, &mut all)?;
    }
    Ok(all)
}

// How many bytes a write of each word takes.
fn writes<O: Sink>(alloc: Global, out: &mut O, words: &[&str]) -> Result<String, NoMemory> {
    let mut all = String::new(alloc);
    for word in words {
        match out.write(text_of(*word)) {
            Ok(count) => put(format!(in alloc; "{count}")?.as_str(), &mut all)?,
            Err(_) => put("failed", &mut all)?,
        }
    }
    Ok(all)
}

// Adds how a write of all bytes ended, and what the output has then.
fn put_written(
    alloc: Global,
    written: Result<(), Failed>,
    bytes: Option<&[u8]>,
    all: &mut String,
) -> Result<(), NoMemory> {
    put(if written.is_ok() { "done" } else { "failed" }, all)?;
    match bytes {
        Some(bytes) => put_bytes(alloc, bytes, all),
        None => put("and more", all),
    }
}

fn written(alloc: Global, mut out: MemSink, words: &[&str]) -> Result<String, NoMemory> {
    let mut all = String::new(alloc);
    for word in words {
        let written = write_all(&mut out, text_of(*word));
        put_written(alloc, written, out.bytes(), &mut all)?;
    }
    Ok(all)
}

// No fault comes from an output that never fails.
fn write_surely(out: &mut SureSink, bytes: &[u8]) -> Result<(), Failed>
    ensures { OnErr result ⊥ }
{
    write_all(out, bytes)
}

fn surely_written(alloc: Global, mut out: SureSink, words: &[&str]) -> Result<String, NoMemory> {
    let mut all = String::new(alloc);
    for word in words {
        let written = write_surely(&mut out, text_of(*word));
        put_written(alloc, written, out.bytes(), &mut all)?;
    }
    Ok(all)
}

// Files of the words `NAME=TEXT`, and what reads of the other words give: three are a name, the place and how many bytes.
fn of_files(alloc: Global, words: &[&str], fail: Vec<u64>) -> Result<String, NoMemory> {
    let mut files = MemFiles::new(alloc, fail);
    let mut all = String::new(alloc);
    for (at, name) in words.iter().enumerate() {
        if let Some((name, text)) = name.split_once("=") {
            files.add(Name::copy(alloc, name.as_bytes())?, bytes_of(alloc, text)?)?;
        } else if name.starts_with("m.") {
            let mut piece = vec![in alloc; 0u8; count_of(words, at.saturating_add(2))]?;
            let place = count_of(words, at.saturating_add(1)).min(MOST_FILE_BYTES) as u64;
            let given = files.read_at(*name, place, &mut piece);
            put_read(alloc, given, &piece, &mut all)?;
        }
    }
    Ok(all)
}

// No fault comes from files that never fail.
fn read_surely(alloc: Global, files: &mut SureFiles, name: &str) -> Result<Vec<u8>, WholeFault>
    ensures { IsErrOf result WholeFault.Failed → ⊥ }
{
    read_whole(alloc, files, name)
}

// How many bytes a file of this name has that is read whole, beside `m.asn` with so many.
fn whole(alloc: Global, name: &str, count: usize) -> Result<String, NoMemory> {
    let mut files = SureFiles::new(alloc);
    files.add(Name::copy(alloc, b"m.asn")?, vec![in alloc; 7u8; count]?)?;
    match read_surely(alloc, &mut files, name) {
        Ok(bytes) => Ok(format!(in alloc; "{}", bytes.len())?),
        Err(WholeFault::NoMemory) => Err(NoMemory),
        Err(_) => Ok("too long".to_string(alloc)?),
    }
}

// What an input does whose text the first word is, in pieces of so many bytes.
fn of_input(alloc: Global, kind: &str, words: &[&str]) -> Result<String, NoMemory> {
    let bytes = bytes_of(alloc, word(words, 0))?;
    let piece = count_of(words, 1).max(1);
    let counts = words.get(2..).unwrap_or(&[]);
    match kind {
        "sure-input" => reads(alloc, &mut SureSource::new(bytes, piece), counts),
        "reader" => reads(alloc, &mut StdInput::new(bytes.as_slice()), counts),
        _ => {
            let fail = fails(alloc, word(words, 2))?;
            let counts = words.get(3..).unwrap_or(&[]);
            reads(alloc, &mut MemSource::new(bytes, piece, fail), counts)
        }
    }
}

// What an output does that keeps so many bytes and takes so many at once.
fn of_output(alloc: Global, kind: &str, words: &[&str]) -> Result<String, NoMemory> {
    let room = vec![in alloc; 0u8; count_of(words, 0)]?;
    let piece = count_of(words, 1).max(1);
    let texts = words.get(2..).unwrap_or(&[]);
    if kind == "sure-output" {
        return surely_written(alloc, SureSink::new(room, piece), texts);
    }
    let fail = fails(alloc, word(words, 2))?;
    let texts = words.get(3..).unwrap_or(&[]);
    written(alloc, MemSink::new(room, piece, fail), texts)
}

/// What an object outside does: the first word says which.
pub fn outside_told(alloc: Global, words: &[&str]) -> Result<String, NoMemory> {
    let rest = words.get(1..).unwrap_or(&[]);
    let behind = words.get(2..).unwrap_or(&[]);
    let most = count_of(words, 1);
    match word(words, 0) {
        "files" => of_files(alloc, behind, fails(alloc, word(words, 1))?),
        "whole" => whole(alloc, word(words, 1), count_of(words, 2)),
        "printer" => writes(alloc, &mut StdOutput::new(&Taker { most }), behind),
        "error-printer" => writes(alloc, &mut StdError::new(&Taker { most }), behind),
        "output" => of_output(alloc, "output", rest),
        "sure-output" => of_output(alloc, "sure-output", rest),
        kind => of_input(alloc, kind, rest),
    }
}
