//! The line of a refusal, taken apart.

use crate::names::{put_cycle, put_no_module, put_repeated, put_unknown, put_wrong_kind};
use crate::types::put_type;
use acn_marks::{Source, is_text, module_and_type};
use acn_outside::{Failed, Sink};
use std::alloc::Global;

// What stands behind a front, if that is there.
fn behind<'a>(text: &'a [u8], front: &[u8]) -> Option<&'a [u8]> {
    let head = text.get(..front.len())?;
    if is_text(head, front) {
        text.get(front.len()..)
    } else {
        None
    }
}

// What stands before the first byte of this value, a blank or the end of the line, and what stands
// behind that.
fn cut(text: &[u8], mark: u8) -> (&[u8], &[u8]) {
    for (number, byte) in text.iter().enumerate() {
        if *byte == mark || *byte == b'\n' {
            let rest = text.get(number..).unwrap_or(&[]);
            return (
                text.get(..number).unwrap_or(text),
                rest.get(1..).unwrap_or(&[]),
            );
        }
    }
    (text, &[])
}

// A word of a line.
fn text_of(word: &[u8]) -> &str {
    std::str::from_utf8(word).unwrap_or("")
}

fn put_name<O: Sink>(
    alloc: Global,
    sources: &[Source<'_>],
    told: &[u8],
    out: &mut O,
) -> Result<(), Failed> {
    let (word, rest) = cut(told, b' ');
    let word = text_of(word);
    let (named, _) = cut(rest, b' ');
    if word == "NoModule" {
        return put_no_module(sources, named, out);
    }
    let Some((module, name, _)) = module_and_type(named) else {
        return Ok(());
    };
    match word {
        "Unknown" => put_unknown(alloc, sources, module, name, out),
        "Repeated" => put_repeated(sources, module, name, out),
        "Cycle" => put_cycle(sources, module, name, out),
        "WrongKind" => put_wrong_kind(sources, module, name, out),
        _ => Ok(()),
    }
}

/// Prints where in the sources what the line of a refusal says stands: at most five lines. The
/// sources are files that have no fault of their own.
pub fn put_source_place<O: Sink>(
    alloc: Global,
    sources: &[Source<'_>],
    line: &[u8],
    out: &mut O,
) -> Result<(), Failed> {
    let Some(told) = behind(line, b"acn: ") else {
        return Ok(());
    };
    if let Some(names) = behind(told, b"names: ") {
        return put_name(alloc, sources, names, out);
    }
    let (path, rest) = cut(told, b':');
    let Some(reason) = behind(rest, b" ") else {
        return Ok(());
    };
    let (word, _) = cut(reason, b' ');
    put_type(alloc, sources, path, text_of(word), out)
}
