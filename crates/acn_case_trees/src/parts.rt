//! Lines in which parts of a case, or a number, stand in the places of `$` and a sign.

use acn_num::NoMemory;
use std::alloc::Global;

const SIGNS: [&str; 4] = ["1", "2", "3", "4"];

// The number of the part that a text begins with the sign of, and what stands behind the sign.
fn sign_of(piece: &str) -> Option<(usize, &str)> {
    for (place, sign) in SIGNS.iter().enumerate() {
        if let Some(rest) = piece.strip_prefix(*sign) {
            return Some((place, rest));
        }
    }
    None
}

// Adds what stands behind a `$`. False comes where it is a part that isn't there.
fn put_piece(parts: &[&str], piece: &str, text: &mut String) -> Result<bool, NoMemory> {
    match sign_of(piece) {
        Some((place, rest)) => match parts.get(place) {
            Some(part) => {
                write!(text, "{}{rest}", part.trim())?;
                Ok(true)
            }
            None => Ok(false),
        },
        None => {
            write!(text, "${piece}")?;
            Ok(true)
        }
    }
}

/// The line with the parts in their places. None comes where one of them isn't there.
pub fn filled(alloc: Global, line: &str, parts: &[&str]) -> Result<Option<String>, NoMemory> {
    let mut text = String::new(alloc);
    for (place, piece) in line.split("$").enumerate() {
        if place == 0 {
            text.push_str(piece)?;
        } else if !put_piece(parts, piece, &mut text)? {
            return Ok(None);
        }
    }
    Ok(Some(text))
}

/// The line with a number in the places of `$i`.
pub fn numbered(alloc: Global, line: &str, number: u32) -> Result<String, NoMemory> {
    let mut text = String::new(alloc);
    for (place, piece) in line.split("$").enumerate() {
        if place == 0 {
            text.push_str(piece)?;
        } else {
            match piece.strip_prefix("i") {
                Some(rest) => write!(text, "{number}{rest}")?,
                None => write!(text, "${piece}")?,
            }
        }
    }
    Ok(text)
}
