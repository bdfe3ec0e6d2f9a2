//! Tokens, and trees that are printed back.

use acn_case_sheets::{CaseFiles, Trouble, add, bytes_of, no_files, tokens_of};
use acn_lex::{Kind, Token, Tokens};
use acn_num::NoMemory;
use acn_source_printer::{acn_in_words, asn_in_words, map_in_words};
use acn_sources::FileKind;
use acn_world::Sources;
use std::alloc::Global;

fn kind_in_words(kind: Kind) -> &'static str {
    match kind {
        Kind::Word => "Word",
        Kind::Number => "Number",
        Kind::Bits => "Bits",
        Kind::Hex => "Hex",
        Kind::Text => "Text",
        Kind::Mark => "Mark",
    }
}

// Adds the kind, the place and the text of a token.
fn push_token(alloc: Global, token: &Token<'_>, words: &mut String) -> Result<(), NoMemory> {
    let kind = kind_in_words(token.kind);
    let text = String::from_utf8_lossy(alloc, token.text)?;
    let comma = if words.is_empty() { "" } else { ", " };
    write!(words, "{comma}{kind} {} {}", token.at, text)?;
    Ok(())
}

// The tokens, or how many there are where there are more than twenty.
fn tokens_in_words(alloc: Global, tokens: &Tokens<'_>) -> Result<String, NoMemory> {
    let items = tokens.list.items();
    if items.is_empty() {
        return Ok("no tokens".to_string(alloc)?);
    }
    if items.len() > 20 {
        return Ok(format!(in alloc; "{} tokens", items.len())?);
    }
    let mut words = String::new(alloc);
    for token in items {
        push_token(alloc, token, &mut words)?;
    }
    Ok(words)
}

// The bytes of the first file, and what it holds.
fn first_file(
    alloc: Global,
    files: &CaseFiles,
    parts: &[&str],
) -> Result<(FileKind, Vec<u8>), Trouble> {
    match files.list.first() {
        Some(file) => {
            let text = file.filled(alloc, parts)?;
            Ok((file.kind, bytes_of(alloc, text.as_str())?))
        }
        None => Err(Trouble::Absent),
    }
}

/// The tokens of the first file in words.
pub fn tokens_told(alloc: Global, files: &CaseFiles, parts: &[&str]) -> Result<String, Trouble> {
    let (_, bytes) = first_file(alloc, files, parts)?;
    let tokens = tokens_of(alloc, bytes.as_slice())?;
    Ok(tokens_in_words(alloc, &tokens)?)
}

// The trees of one file as a text.
fn trees_in_words(alloc: Global, all: &Sources) -> Result<Vec<u8>, NoMemory> {
    if let Some(tree) = all.asn.items().first() {
        return asn_in_words(alloc, tree);
    }
    if let Some(tree) = all.acn.items().first() {
        return acn_in_words(alloc, tree);
    }
    match all.maps.items().first() {
        Some(tree) => map_in_words(alloc, tree),
        None => Ok(Vec::new(alloc)),
    }
}

// The tree of a file as a text.
fn printed(alloc: Global, kind: FileKind, bytes: &[u8]) -> Result<Vec<u8>, Trouble> {
    let mut all = no_files(alloc);
    add(alloc, kind, bytes, &mut all)?;
    Ok(trees_in_words(alloc, &all)?)
}

/// The tree of the first file as a text.
pub fn print_told(alloc: Global, files: &CaseFiles, parts: &[&str]) -> Result<String, Trouble> {
    let (kind, bytes) = first_file(alloc, files, parts)?;
    let text = printed(alloc, kind, bytes.as_slice())?;
    let words = String::from_utf8_lossy(alloc, text.as_slice())?;
    Ok(words.as_str().trim().to_string(alloc)?)
}

fn is_same(a: &Token<'_>, b: &Token<'_>) -> bool {
    a.kind == b.kind && a.text == b.text
}

// The number of the first token that isn't the same.
fn first_other(read: &[Token<'_>], again: &[Token<'_>]) -> Option<usize> {
    for (at, token) in read.iter().enumerate() {
        match again.get(at) {
            None => return Some(at),
            Some(other) => {
                if !is_same(token, other) {
                    return Some(at);
                }
            }
        }
    }
    if read.len() < again.len() {
        Some(read.len())
    } else {
        None
    }
}

/// `Ok` where the tree of the first file has the tokens of its text, and else the number of the first one that is lost.
pub fn kept_told(alloc: Global, files: &CaseFiles, parts: &[&str]) -> Result<String, Trouble> {
    let (kind, bytes) = first_file(alloc, files, parts)?;
    let text = printed(alloc, kind, bytes.as_slice())?;
    let read = tokens_of(alloc, bytes.as_slice())?;
    let again = tokens_of(alloc, text.as_slice())?;
    match first_other(read.list.items(), again.list.items()) {
        None => Ok("Ok".to_string(alloc)?),
        Some(at) => Ok(format!(in alloc; "lost {at}")?),
    }
}
