//! Steps inside a type of ASN.1.

use crate::brackets::{closing, field_named};
use crate::names::{assignment_of, module_of};
use crate::paths::Step;
use crate::source::{Mark, Source, is_at, is_capital, text_at};
use acn_lex::Token;

// The types that are no references.
const WORDS: [&str; 12] = [
    "SEQUENCE",
    "CHOICE",
    "INTEGER",
    "BOOLEAN",
    "NULL",
    "ENUMERATED",
    "OCTET",
    "BIT",
    "IA5String",
    "SET",
    "REAL",
    "OF",
];

// Whether a token is the name of a type.
fn is_reference(tokens: &[Token<'_>], at: usize) -> bool {
    for word in WORDS {
        if is_at(tokens, at, word.as_bytes()) {
            return false;
        }
    }
    is_capital(tokens, at)
}

// The token behind a tag.
fn behind_tag(tokens: &[Token<'_>], at: usize) -> usize {
    if is_at(tokens, at, b"[") {
        closing(tokens, at).saturating_add(1)
    } else {
        at
    }
}

// The token behind the first of a word that stands in a type, or none.
fn behind_word(tokens: &[Token<'_>], begins: usize, word: &[u8]) -> Option<usize> {
    for at in begins..tokens.len() {
        if is_at(tokens, at, word) {
            return Some(at.saturating_add(1));
        }
        if is_at(tokens, at, b"{") || is_at(tokens, at, b",") || is_at(tokens, at, b"}") {
            return None;
        }
    }
    None
}

/// The token of the name to which a step leads from a type, if it has a name, and the token at
/// which the type there begins.
pub fn inside(tokens: &[Token<'_>], at: usize, step: Step<'_>) -> Option<(Option<usize>, usize)> {
    match step {
        Step::Named(name) => {
            let open = at.saturating_add(1);
            if !is_at(tokens, open, b"{") {
                return None;
            }
            let field = field_named(tokens, open, name)?;
            Some((Some(field), behind_tag(tokens, field.saturating_add(1))))
        }
        Step::Element => {
            let element = behind_word(tokens, at, b"OF")?;
            Some((None, behind_tag(tokens, element)))
        }
        Step::Content => {
            let content = behind_word(tokens, at, b"CONTAINING")?;
            Some((None, behind_tag(tokens, content)))
        }
    }
}

// The assignment of a type in a file, or else in the first that has one.
fn assigned_in(sources: &[Source<'_>], own: usize, name: &[u8]) -> Option<Mark> {
    if let Some(found) = assigned_at(sources, own, name) {
        return Some(found);
    }
    for number in 0..sources.len() {
        if let Some(found) = assigned_at(sources, number, name) {
            return Some(found);
        }
    }
    None
}

fn assigned_at(sources: &[Source<'_>], number: usize, name: &[u8]) -> Option<Mark> {
    let source = sources.get(number)?;
    let tokens = source.list();
    for token in 0..tokens.len() {
        if is_at(tokens, token, name) && is_at(tokens, token.saturating_add(1), b"::=") {
            return Some(Mark {
                source: number,
                token,
            });
        }
    }
    None
}

/// The name of the type to which a type refers, and where that is assigned.
pub fn referred<'a>(sources: &[Source<'a>], at: Mark) -> Option<(&'a [u8], Mark)> {
    let tokens = sources.get(at.source)?.list();
    if !is_reference(tokens, at.token) {
        return None;
    }
    let behind = at.token.saturating_add(1);
    let token = if is_at(tokens, behind, b".") {
        behind.saturating_add(1)
    } else {
        at.token
    };
    let name = text_at(tokens, token);
    Some((name, assigned_in(sources, at.source, name)?))
}

/// Where the type of a path begins: at its assignment.
pub fn root_of(sources: &[Source<'_>], module: &[u8], name: &[u8]) -> Option<Mark> {
    let (source, span) = module_of(sources, 0, false, module)?;
    let token = assignment_of(sources.get(source)?.list(), span, name)?;
    Some(Mark { source, token })
}
