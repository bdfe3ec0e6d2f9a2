//! Names that are refused.

use crate::put::{put_list, put_mark, put_nearest};
use acn_marks::{Mark, Source, assigned, assignment_of, first_use, is_text, module_of, second_use};
use acn_num::NoMemory;
use acn_outside::{Failed, Sink};
use std::alloc::Global;

// The types of a module.
fn types_of<'a>(
    alloc: Global,
    sources: &[Source<'a>],
    module: &[u8],
) -> Result<Vec<&'a [u8]>, NoMemory> {
    match module_of(sources, 0, false, module) {
        Some((number, span)) => match sources.get(number) {
            Some(source) => assigned(alloc, source, span),
            None => Ok(Vec::new(alloc)),
        },
        None => Ok(Vec::new(alloc)),
    }
}

// Prints a mark, if there is one.
fn put_at<O: Sink>(
    sources: &[Source<'_>],
    mark: Option<Mark>,
    told: &str,
    out: &mut O,
) -> Result<(), Failed> {
    match mark {
        Some(mark) => put_mark(sources, mark, told, out),
        None => Ok(()),
    }
}

/// Prints what helps on a name that leads nowhere: at most five lines.
pub fn put_unknown<O: Sink>(
    alloc: Global,
    sources: &[Source<'_>],
    module: &[u8],
    name: &[u8],
    out: &mut O,
) -> Result<(), Failed> {
    put_at(
        sources,
        first_use(sources, module, name),
        "this name leads nowhere",
        out,
    )?;
    match types_of(alloc, sources, module) {
        Ok(types) => {
            put_nearest(name, &types, out)?;
            put_list("  types of the module: ", &types, out)
        }
        Err(_) => Ok(()),
    }
}

/// Prints where a name is given for the second time: three lines.
pub fn put_repeated<O: Sink>(
    sources: &[Source<'_>],
    module: &[u8],
    name: &[u8],
    out: &mut O,
) -> Result<(), Failed> {
    let mark = second_use(sources, module, name);
    put_at(
        sources,
        mark,
        "this name is given here for the second time",
        out,
    )
}

// The first token of a text in the sources.
fn first_token(sources: &[Source<'_>], text: &[u8]) -> Option<Mark> {
    for (number, source) in sources.iter().enumerate() {
        for (token, found) in source.list().iter().enumerate() {
            if is_text(found.text, text) {
                return Some(Mark {
                    source: number,
                    token,
                });
            }
        }
    }
    None
}

/// Prints where a module that isn't there is named: three lines.
pub fn put_no_module<O: Sink>(
    sources: &[Source<'_>],
    name: &[u8],
    out: &mut O,
) -> Result<(), Failed> {
    let told = "no file of ASN.1 has this module";
    put_at(sources, first_token(sources, name), told, out)
}

// The assignment of a name.
fn assignment(sources: &[Source<'_>], module: &[u8], name: &[u8]) -> Option<Mark> {
    let (source, span) = module_of(sources, 0, false, module)?;
    let token = assignment_of(sources.get(source)?.list(), span, name)?;
    Some(Mark { source, token })
}

/// Prints where a type or a value stands that reaches itself: three lines.
pub fn put_cycle<O: Sink>(
    sources: &[Source<'_>],
    module: &[u8],
    name: &[u8],
    out: &mut O,
) -> Result<(), Failed> {
    put_at(
        sources,
        assignment(sources, module, name),
        "this reaches itself",
        out,
    )
}

/// Prints where a name stands that leads to something of another kind: three lines.
pub fn put_wrong_kind<O: Sink>(
    sources: &[Source<'_>],
    module: &[u8],
    name: &[u8],
    out: &mut O,
) -> Result<(), Failed> {
    let told = "this name leads to something of another kind";
    put_at(sources, first_use(sources, module, name), told, out)
}
