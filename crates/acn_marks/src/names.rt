//! Where names stand.

use crate::brackets::{is_start, opening};
use crate::source::{Mark, Source, Span, is_at, is_capital, is_text, is_word, text_at};
use acn_lex::Token;
use acn_num::NoMemory;
use std::alloc::Global;

fn end_of(tokens: &[Token<'_>], begins: usize) -> usize {
    for at in begins..tokens.len() {
        if is_at(tokens, at, b"END") {
            return at;
        }
    }
    tokens.len()
}

// Whether a module of this name begins here.
fn begins_module(tokens: &[Token<'_>], at: usize, module: &[u8]) -> bool {
    let behind = at.saturating_add(1);
    let heads = is_at(tokens, behind, b"DEFINITIONS") || is_at(tokens, behind, b"{");
    heads && is_at(tokens, at, module) && !is_at(tokens, at.saturating_sub(1), b"::=")
}

// The tokens of the first module of this name in a file.
fn module_in(source: &Source<'_>, module: &[u8]) -> Option<Span> {
    let tokens = source.list();
    for begins in 0..tokens.len() {
        if begins_module(tokens, begins, module) {
            return Some(Span {
                begins,
                ends: end_of(tokens, begins),
            });
        }
    }
    None
}

/// The first file, from one on, that has a module of this name, and the module's tokens.
pub fn module_of(
    sources: &[Source<'_>],
    from: usize,
    is_acn: bool,
    module: &[u8],
) -> Option<(usize, Span)> {
    for number in from..sources.len() {
        let source = &sources[number];
        if source.is_acn == is_acn {
            if let Some(span) = module_in(source, module) {
                return Some((number, span));
            }
        }
    }
    None
}

/// The token at which a name is assigned in a module.
pub fn assignment_of(tokens: &[Token<'_>], span: Span, name: &[u8]) -> Option<usize> {
    for at in span.begins..span.ends {
        if is_at(tokens, at, name) && is_at(tokens, at.saturating_add(1), b"::=") {
            return Some(at);
        }
    }
    None
}

/// The token at which the entry of a type begins in a module of ACN.
pub fn entry_of(tokens: &[Token<'_>], span: Span, name: &[u8]) -> Option<usize> {
    for at in span.begins..span.ends {
        let behind = at.saturating_add(1);
        let heads = is_at(tokens, behind, b"[") || is_at(tokens, behind, b"<");
        if heads && is_at(tokens, at, name) && opening(tokens, at).is_none() {
            return Some(at);
        }
    }
    None
}

// The number of the token behind the first BEGIN of a module.
fn body_of(tokens: &[Token<'_>], span: Span) -> usize {
    for at in span.begins..span.ends {
        if is_at(tokens, at, b"BEGIN") {
            return at.saturating_add(1);
        }
    }
    span.ends
}

/// The types that are assigned in a module.
pub fn assigned<'a>(
    alloc: Global,
    source: &Source<'a>,
    span: Span,
) -> Result<Vec<&'a [u8]>, NoMemory> {
    let tokens = source.list();
    let mut all = Vec::new(alloc);
    for at in body_of(tokens, span)..span.ends {
        if is_capital(tokens, at) && is_at(tokens, at.saturating_add(1), b"::=") {
            all.push(text_at(tokens, at))?;
        }
    }
    Ok(all)
}

// Where a name stands first between tokens.
fn first_in(tokens: &[Token<'_>], span: Span, name: &[u8]) -> Option<usize> {
    for at in span.begins.saturating_add(1)..span.ends {
        if is_word(tokens, at) && is_at(tokens, at, name) {
            return Some(at);
        }
    }
    None
}

// The same in the first module of a name.
fn first_of_module(
    sources: &[Source<'_>],
    is_acn: bool,
    module: &[u8],
    name: &[u8],
) -> Option<Mark> {
    let (source, span) = module_of(sources, 0, is_acn, module)?;
    let token = first_in(sources.get(source)?.list(), span, name)?;
    Some(Mark { source, token })
}

/// Where a name stands first in the text of a module, in files of ASN.1 and then in those of ACN.
pub fn first_use(sources: &[Source<'_>], module: &[u8], name: &[u8]) -> Option<Mark> {
    for is_acn in [false, true] {
        if let Some(mark) = first_of_module(sources, is_acn, module, name) {
            return Some(mark);
        }
    }
    None
}

// Whether a name is given at a token: an assignment, an entry, or an item between braces.
fn is_given(tokens: &[Token<'_>], at: usize) -> bool {
    let behind = at.saturating_add(1);
    let heads = is_at(tokens, behind, b"::=") || is_at(tokens, behind, b"[");
    is_start(tokens, at) || (heads && opening(tokens, at).is_none())
}

// Whether a name is given at a token for the second time in one place.
fn is_second(tokens: &[Token<'_>], begins: usize, at: usize) -> bool {
    for before in begins..at {
        let same = text_at(tokens, before) == text_at(tokens, at);
        if same && is_given(tokens, before) && opening(tokens, before) == opening(tokens, at) {
            return true;
        }
    }
    false
}

fn second_in(tokens: &[Token<'_>], span: Span, name: &[u8]) -> Option<usize> {
    let begins = span.begins.saturating_add(1);
    for at in begins..span.ends {
        if is_at(tokens, at, name) && is_given(tokens, at) && is_second(tokens, begins, at) {
            return Some(at);
        }
    }
    None
}

// The same in the first module of a name.
fn second_of_module(
    sources: &[Source<'_>],
    is_acn: bool,
    module: &[u8],
    name: &[u8],
) -> Option<Mark> {
    let (source, span) = module_of(sources, 0, is_acn, module)?;
    let token = second_in(sources.get(source)?.list(), span, name)?;
    Some(Mark { source, token })
}

// The second module of a name.
fn second_module(sources: &[Source<'_>], module: &[u8]) -> Option<Mark> {
    for is_acn in [false, true] {
        if let Some((number, _)) = module_of(sources, 0, is_acn, module) {
            let from = number.saturating_add(1);
            if let Some((source, span)) = module_of(sources, from, is_acn, module) {
                return Some(Mark {
                    source,
                    token: span.begins,
                });
            }
        }
    }
    None
}

/// Where a name is given for the second time in one place of a module, or the module itself in
/// another file.
pub fn second_use(sources: &[Source<'_>], module: &[u8], name: &[u8]) -> Option<Mark> {
    if is_text(module, name) {
        return second_module(sources, module);
    }
    for is_acn in [false, true] {
        if let Some(mark) = second_of_module(sources, is_acn, module, name) {
            return Some(mark);
        }
    }
    None
}
