//! From texts to the trees of sources.

use crate::files::CaseFiles;
use crate::trouble::Trouble;
use acn_acn_parse::{parse_acn, parse_map};
use acn_asn_parse::parse_asn;
use acn_lex::{Tokens, lex};
use acn_names::resolve;
use acn_num::{MOST_FILE_BYTES, Row};
use acn_sources::FileKind;
use acn_world::{Sources, World};
use std::alloc::Global;

// The byte of two hexadecimal digits, and what stands behind them.
fn escaped(piece: &str) -> Option<(u8, &str)> {
    let (digits, rest) = piece.split_at_checked(2)?;
    match u8::from_str_radix(digits, 16) {
        Ok(byte) => Some((byte, rest)),
        Err(_) => None,
    }
}

fn put_escaped(piece: &str, bytes: &mut Vec<u8>) -> Result<(), Trouble> {
    match escaped(piece) {
        Some((byte, rest)) => {
            bytes.push(byte)?;
            bytes.extend_from_slice(rest.as_bytes())?;
        }
        None => {
            bytes.push(b'\\')?;
            bytes.extend_from_slice(piece.as_bytes())?;
        }
    }
    Ok(())
}

/// The bytes of a text, in which `\` and two hexadecimal digits are one.
pub fn bytes_of(alloc: Global, text: &str) -> Result<Vec<u8>, Trouble> {
    let mut bytes = Vec::new(alloc);
    for (place, piece) in text.split("\\").enumerate() {
        if place == 0 {
            bytes.extend_from_slice(piece.as_bytes())?;
        } else {
            put_escaped(piece, &mut bytes)?;
        }
    }
    Ok(bytes)
}

/// The tokens of bytes, of which there are at most 1,000,000.
pub fn tokens_of(alloc: Global, bytes: &[u8]) -> Result<Tokens<'_>, Trouble> {
    if bytes.len() > MOST_FILE_BYTES {
        return Err(Trouble::TooMuch);
    }
    Ok(lex(alloc, bytes)?)
}

/// No files.
pub fn no_files(alloc: Global) -> Sources {
    Sources {
        asn: Row::new(alloc),
        acn: Row::new(alloc),
        maps: Row::new(alloc),
    }
}

/// Adds a file of this kind.
pub fn add(alloc: Global, kind: FileKind, bytes: &[u8], all: &mut Sources) -> Result<(), Trouble> {
    let tokens = tokens_of(alloc, bytes)?;
    if tokens.list.items().len() > 1_000_000 {
        return Err(Trouble::TooMuch);
    }
    match kind {
        FileKind::Asn => all.asn.push(parse_asn(alloc, &tokens)?)?,
        FileKind::Acn => all.acn.push(parse_acn(alloc, &tokens)?)?,
        FileKind::Map => all.maps.push(parse_map(alloc, &tokens)?)?,
    }
    Ok(())
}

/// The trees of the files, with the parts in their places. Files without a text are left out, where that is wanted.
pub fn sources(
    alloc: Global,
    files: &CaseFiles,
    parts: &[&str],
    all_files: bool,
) -> Result<Sources, Trouble> {
    let mut all = no_files(alloc);
    for file in files.list.iter() {
        let text = file.filled(alloc, parts)?;
        if all_files || !text.as_str().trim().is_empty() {
            let bytes = bytes_of(alloc, text.as_str())?;
            add(alloc, file.kind, bytes.as_slice(), &mut all)?;
        }
    }
    Ok(all)
}

/// The world of the files, with the parts in their places. Files without a text are left out.
pub fn world_of(alloc: Global, files: &CaseFiles, parts: &[&str]) -> Result<World, Trouble> {
    let all = sources(alloc, files, parts, false)?;
    Ok(resolve(alloc, all)?)
}
