//! The bytes of a line of JSON, as cases write them.

use acn_case_lines::{small, word};
use acn_num::NoMemory;
use std::alloc::Global;

// Adds the byte of the two digits that a piece begins with, and what stands behind them.
fn push_piece(piece: &str, bytes: &mut Vec<u8>) -> Result<(), NoMemory> {
    let digits = piece.get(..2).unwrap_or("");
    bytes.push(u8::from_str_radix(digits, 16).unwrap_or(0))?;
    bytes.extend_from_slice(piece.get(2..).unwrap_or("").as_bytes())?;
    Ok(())
}

/// The bytes of a text, in which `%` and two hexadecimal digits are one byte.
pub fn bytes_of(alloc: Global, text: &str) -> Result<Vec<u8>, NoMemory> {
    let mut bytes = Vec::new(alloc);
    for (place, piece) in text.split("%").enumerate() {
        if place == 0 {
            bytes.extend_from_slice(piece.as_bytes())?;
        } else {
            push_piece(piece, &mut bytes)?;
        }
    }
    Ok(bytes)
}

fn push_times(count: u32, bytes: &[u8], all: &mut Vec<u8>) -> Result<(), NoMemory> {
    for _ in 0..count {
        all.extend_from_slice(bytes)?;
    }
    Ok(())
}

/// A count, and three texts, of which the last may be left out: the first text so many times, the last one, and the second as often.
pub fn nested_of(alloc: Global, text: &str) -> Result<Vec<u8>, NoMemory> {
    let words: Vec<&str> = text.split_whitespace().collect(alloc)?;
    let words = words.as_slice();
    let open = bytes_of(alloc, word(words, 1))?;
    let close = bytes_of(alloc, word(words, 2))?;
    let inside = bytes_of(alloc, word(words, 3))?;
    let mut bytes = Vec::new(alloc);
    push_times(small(words, 0), open.as_slice(), &mut bytes)?;
    bytes.extend_from_slice(inside.as_slice())?;
    push_times(small(words, 0), close.as_slice(), &mut bytes)?;
    Ok(bytes)
}
