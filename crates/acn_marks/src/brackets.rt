//! Brackets, and what stands between them.

use crate::source::{is_at, is_text, is_word, text_at};
use acn_lex::Token;
use acn_num::NoMemory;
use std::alloc::Global;

// Whether a token opens brackets.
fn opens(text: &[u8]) -> bool {
    is_text(text, b"{") || is_text(text, b"[") || is_text(text, b"(")
}

fn closes(text: &[u8]) -> bool {
    is_text(text, b"}") || is_text(text, b"]") || is_text(text, b")")
}

/// The number of the token that closes the brackets that one opens, or how many tokens there are.
pub fn closing(tokens: &[Token<'_>], open: usize) -> usize {
    let mut depth = 0u64;
    for at in open..tokens.len() {
        if opens(text_at(tokens, at)) {
            depth = depth.saturating_add(1);
        }
        if closes(text_at(tokens, at)) {
            depth = depth.saturating_sub(1);
            if depth == 0 {
                return at;
            }
        }
    }
    tokens.len()
}

/// The number of the brace that opens what stands round a token.
pub fn opening(tokens: &[Token<'_>], token: usize) -> Option<usize> {
    let mut depth = 0u64;
    for back in 0..token {
        let at = token.saturating_sub(1).saturating_sub(back);
        if closes(text_at(tokens, at)) {
            depth = depth.saturating_add(1);
        }
        if opens(text_at(tokens, at)) {
            if depth == 0 {
                return Some(at);
            }
            depth = depth.saturating_sub(1);
        }
    }
    None
}

/// Whether a token is the first of an item between braces.
pub fn is_start(tokens: &[Token<'_>], at: usize) -> bool {
    match at.checked_sub(1) {
        Some(before) => {
            is_word(tokens, at) && (is_at(tokens, before, b"{") || is_at(tokens, before, b","))
        }
        None => false,
    }
}

/// The numbers of the tokens with which the items between braces begin.
pub fn fields_of(alloc: Global, tokens: &[Token<'_>], open: usize) -> Result<Vec<usize>, NoMemory> {
    let mut all = Vec::new(alloc);
    let mut depth = 0u64;
    for at in open..closing(tokens, open) {
        if depth == 1 && is_start(tokens, at) {
            all.push(at)?;
        }
        if opens(text_at(tokens, at)) {
            depth = depth.saturating_add(1);
        }
        if closes(text_at(tokens, at)) {
            depth = depth.saturating_sub(1);
        }
    }
    Ok(all)
}

/// The number of the token with which the item of a name begins between braces.
pub fn field_named(tokens: &[Token<'_>], open: usize, name: &[u8]) -> Option<usize> {
    let mut depth = 0u64;
    for at in open..closing(tokens, open) {
        if depth == 1 && is_start(tokens, at) && is_at(tokens, at, name) {
            return Some(at);
        }
        if opens(text_at(tokens, at)) {
            depth = depth.saturating_add(1);
        }
        if closes(text_at(tokens, at)) {
            depth = depth.saturating_sub(1);
        }
    }
    None
}

// The number of the token behind arguments or parameters.
fn behind_angles(tokens: &[Token<'_>], at: usize) -> usize {
    if !is_at(tokens, at, b"<") {
        return at;
    }
    for end in at..tokens.len() {
        if is_at(tokens, end, b">") {
            return end.saturating_add(1);
        }
    }
    tokens.len()
}

/// The number of the brace behind a name of ACN with its arguments and attributes, if there is one.
pub fn braces_behind(tokens: &[Token<'_>], name: usize) -> Option<usize> {
    let at = behind_angles(tokens, name.saturating_add(1));
    let behind = if is_at(tokens, at, b"[") {
        closing(tokens, at).saturating_add(1)
    } else {
        at
    };
    if is_at(tokens, behind, b"{") {
        Some(behind)
    } else {
        None
    }
}
