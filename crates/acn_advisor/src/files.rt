//! Where a file is at fault, and where to read on.

ghost use Rattle.std.specs.Prelude.{◌≤◌, length};
ghost use Rattle.acn_num.specs.declared.limits.TheConstants.{MOST_FILE_BYTES};

use acn_advice::put_marked;
use acn_num::MOST_FILE_BYTES;
use acn_outside::{Failed, Sink};
use acn_print::{Piece, put_all};
use acn_sources::{FileFault, FileKind, read_acn, read_asn, read_map};
use std::alloc::Global;

// The fault of a file that holds what its name says, if it has one.
fn fault_of(alloc: Global, kind: FileKind, bytes: &[u8]) -> Option<FileFault>
    requires { length bytes.now ≤ MOST_FILE_BYTES }
{
    match kind {
        FileKind::Asn => read_asn(alloc, bytes).err(),
        FileKind::Acn => read_acn(alloc, bytes).err(),
        FileKind::Map => read_map(alloc, bytes).err(),
    }
}

// The same by its name.
fn first_fault(alloc: Global, name: &[u8], bytes: &[u8]) -> Option<FileFault> {
    if bytes.len() > MOST_FILE_BYTES {
        return None;
    }
    fault_of(alloc, FileKind::of_name(name)?, bytes)
}

// What is said of the place of a fault, and the place.
fn told(fault: &FileFault) -> Option<(u32, &'static str)> {
    match fault {
        FileFault::BadByte { at } => Some((*at, "nothing can begin so")),
        FileFault::Unclosed { at } => Some((*at, "what begins here has no end")),
        FileFault::TooManyTokens { at } => { Some((*at, "the first of the file that is too much")) }
        FileFault::TooWide { at } => Some((*at, "this number is above 18446744073709551615")),
        FileFault::LeftOut { at, .. } => Some((*at, "this is left out of the language")),
        FileFault::TooDeep { at } => Some((*at, "this stands more than 64 levels deep")),
        FileFault::Syntax { at } => Some((*at, "this can't stand here")),
        FileFault::NoMemory => None,
    }
}

// Prints where a file is at fault, with the line in which that is.
fn put_place<O: Sink>(
    name: &[u8],
    bytes: &[u8],
    fault: &FileFault,
    out: &mut O,
) -> Result<(), Failed> {
    match told(fault) {
        Some((at, words)) => put_marked(name, bytes, at as usize, words, out),
        None => Ok(()),
    }
}

/// Prints where the first of these files that is at fault is so. False comes where none is.
pub fn put_file_place<O: Sink>(
    alloc: Global,
    names: &[String],
    contents: &[Vec<u8>],
    out: &mut O,
) -> Result<bool, Failed> {
    for (name, bytes) in names.iter().zip(contents.iter()) {
        let name = name.as_str().as_bytes();
        if let Some(fault) = first_fault(alloc, name, bytes) {
            put_place(name, bytes, &fault, out)?;
            return Ok(true);
        }
    }
    Ok(false)
}

// Whether a byte stands in the word of a refusal.
fn is_letter(byte: u8) -> bool {
    byte.is_ascii_alphabetic()
}

// The letters at the front.
fn letters(text: &[u8]) -> &[u8] {
    for (number, byte) in text.iter().enumerate() {
        if !is_letter(*byte) {
            return text.get(..number).unwrap_or(text);
        }
    }
    text
}

// What stands behind the last colon and blank.
fn last_part(text: &[u8]) -> &[u8] {
    let mut part = text;
    let mut rest = text;
    while let [first, behind @ ..] = rest {
        if *first == b':' {
            if let [b' ', part_behind @ ..] = behind {
                part = part_behind;
            }
        }
        rest = behind;
    }
    part
}

/// Prints where what the line on a refusal says is explained.
pub fn put_pointer<O: Sink>(line: &[u8], out: &mut O) -> Result<(), Failed> {
    put_all(
        out,
        &[
            Piece::Text("  'acn --explain "),
            Piece::Name(letters(last_part(line))),
            Piece::Text("' says what that means, and what to do\n"),
        ],
    )
}
