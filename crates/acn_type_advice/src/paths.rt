//! Paths that lead to no determinant.

use crate::put::{put_mark, put_nearest};
use acn_lex::Token;
use acn_marks::{Mark, Marks, Source, is_start, is_text};
use acn_num::NoMemory;
use acn_outside::{Failed, Sink};
use std::alloc::Global;

// The most tokens of an entry that are looked at.
const MOST_TOKENS: usize = 64;

// Whether a token is a word that begins with a small letter.
fn is_small(token: &Token<'_>) -> bool {
    match token.text.first() {
        Some(byte) => byte.is_ascii_lowercase(),
        None => false,
    }
}

// Whether a path begins behind a token.
fn leads(before: &[u8]) -> bool {
    is_text(before, b"size")
        || is_text(before, b"determinant")
        || is_text(before, b"present-when")
        || is_text(before, b"<")
}

// The names of the fields of a file.
fn field_names<'a>(alloc: Global, source: &Source<'a>) -> Result<Vec<&'a [u8]>, NoMemory> {
    let mut names = Vec::new(alloc);
    for (at, token) in source.list().iter().enumerate() {
        if is_small(token) && is_start(source.list(), at) {
            names.push(token.text)?;
        }
    }
    Ok(names)
}

// Whether a name is among these.
fn is_among(name: &[u8], names: &[&[u8]]) -> bool {
    for known in names {
        if is_text(*known, name) {
            return true;
        }
    }
    false
}

// The first path behind the name of an entry whose first name is no field's, or else the first
// path.
fn path_at(source: &Source<'_>, entry: usize, names: &[&[u8]]) -> Option<usize> {
    let mut first = None;
    for step in 1..MOST_TOKENS {
        let at = entry.saturating_add(step);
        let token = source.list().get(at)?;
        if is_text(token.text, b"]") || is_text(token.text, b"{") {
            return first;
        }
        let before = source.list().get(at.saturating_sub(1))?;
        if is_small(token) && leads(before.text) && !is_text(token.text, b"null-terminated") {
            if !is_among(token.text, names) {
                return Some(at);
            }
            first = first.or(Some(at));
        }
    }
    first
}

fn put_path<O: Sink>(
    sources: &[Source<'_>],
    entry: Mark,
    names: &[&[u8]],
    out: &mut O,
) -> Result<(), Failed> {
    let told = "this path leads to no field before it";
    let Some(source) = sources.get(entry.source) else {
        return Ok(());
    };
    let Some(token) = path_at(source, entry.token, names) else {
        return put_mark(
            sources,
            entry,
            "a path of this leads to no field before it",
            out,
        );
    };
    let mark = Mark {
        source: entry.source,
        token,
    };
    put_mark(sources, mark, told, out)?;
    match source.list().get(token) {
        Some(found) => put_nearest(found.text, names, out),
        None => Ok(()),
    }
}

/// Prints the path that leads to no field: at most four lines.
pub fn put_unknown_path<O: Sink>(
    alloc: Global,
    sources: &[Source<'_>],
    marks: &Marks,
    out: &mut O,
) -> Result<(), Failed> {
    let Some(entry) = marks.acn else {
        return put_mark(sources, marks.asn, "a path of this leads to no field", out);
    };
    let Some(source) = sources.get(entry.source) else {
        return Ok(());
    };
    match field_names(alloc, source) {
        Ok(names) => put_path(sources, entry, &names, out),
        Err(_) => Ok(()),
    }
}
