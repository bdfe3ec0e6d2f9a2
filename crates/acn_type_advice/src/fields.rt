//! Braces that don't list what a type has.

use crate::put::{put_list, put_mark, put_nearest};
use acn_marks::{Mark, Marks, Source, fields_of, is_text};
use acn_num::NoMemory;
use acn_outside::{Failed, Sink};
use std::alloc::Global;

// The tokens of the items between braces, and their texts.
#[derive(Drop)]
struct Items<'a> {
    source: usize,
    tokens: Vec<usize>,
    names: Vec<&'a [u8]>,
}

// Whether an item of ACN is a field that is inserted: a type stands behind its name.
fn is_inserted(source: &Source<'_>, token: usize) -> bool {
    match source.list().get(token.saturating_add(1)) {
        Some(behind) => match behind.text.first() {
            Some(byte) => byte.is_ascii_uppercase(),
            None => false,
        },
        None => false,
    }
}

// The items between braces, without those that are inserted in ACN.
fn items_of<'a>(alloc: Global, sources: &[Source<'a>], open: Mark) -> Result<Items<'a>, NoMemory> {
    let mut items = Items {
        source: open.source,
        tokens: Vec::new(alloc),
        names: Vec::new(alloc),
    };
    let Some(source) = sources.get(open.source) else {
        return Ok(items);
    };
    for token in fields_of(alloc, source.list(), open.token)? {
        let inserted = source.is_acn && is_inserted(source, token);
        if let Some(found) = source.list().get(token) {
            if !inserted {
                items.tokens.push(token)?;
                items.names.push(found.text)?;
            }
        }
    }
    Ok(items)
}

// The number of the first item that isn't what the type has there.
fn first_other(listed: &[&[u8]], wanted: &[&[u8]]) -> Option<usize> {
    for (number, name) in listed.iter().enumerate() {
        match wanted.get(number) {
            Some(other) => {
                if !is_text(*name, *other) {
                    return Some(number);
                }
            }
            None => return Some(number),
        }
    }
    None
}

// Whether a name is among these.
fn is_among(name: &[u8], names: &[&[u8]]) -> bool {
    for known in names {
        if is_text(*known, name) {
            return true;
        }
    }
    false
}

// Prints the place of a name that stands where the type has another, and the name that was perhaps
// meant.
fn put_other<O: Sink>(
    sources: &[Source<'_>],
    mark: Mark,
    name: &[u8],
    wanted: &Items<'_>,
    out: &mut O,
) -> Result<(), Failed> {
    if is_among(name, &wanted.names) {
        return put_mark(
            sources,
            mark,
            "the type has this name at another place",
            out,
        );
    }
    put_mark(sources, mark, "the type doesn't have this name", out)?;
    put_nearest(name, &wanted.names, out)
}

fn put_difference<O: Sink>(
    sources: &[Source<'_>],
    marks: &Marks,
    open: Mark,
    listed: &Items<'_>,
    wanted: &Items<'_>,
    out: &mut O,
) -> Result<(), Failed> {
    match first_other(&listed.names, &wanted.names) {
        Some(number) => {
            let mark = Mark {
                source: listed.source,
                token: listed.tokens.get(number).copied().unwrap_or(open.token),
            };
            let name = listed.names.get(number).copied().unwrap_or(&[]);
            put_other(sources, mark, name, wanted, out)?;
        }
        None => {
            let mark = marks.acn.unwrap_or(open);
            put_mark(
                sources,
                mark,
                "its braces don't list all that the type has",
                out,
            )?;
        }
    }
    put_list("  the type has: ", &wanted.names, out)
}

// The brace that opens what a type of ASN.1 has.
fn type_braces(marks: &Marks) -> Mark {
    Mark {
        source: marks.of_type.source,
        token: marks.of_type.token.saturating_add(1),
    }
}

/// Prints the first name between braces that differs from what the type has, and what it has: at
/// most five lines.
pub fn put_no_such_field<O: Sink>(
    alloc: Global,
    sources: &[Source<'_>],
    marks: &Marks,
    out: &mut O,
) -> Result<(), Failed> {
    let Some(open) = marks.braces else {
        return put_mark(
            sources,
            marks.acn.unwrap_or(marks.asn),
            "its braces are refused",
            out,
        );
    };
    let listed = items_of(alloc, sources, open);
    let wanted = items_of(alloc, sources, type_braces(marks));
    match (listed, wanted) {
        (Ok(listed), Ok(wanted)) => { put_difference(sources, marks, open, &listed, &wanted, out) }
        _ => Ok(()),
    }
}
