//! Bytes from outside, as they are shown.

use acn_outside::{Failed, Sink};
use acn_print::{Piece, put_piece};

// The most names of a list that are shown.
const MOST_NAMES: usize = 12;

// The most bytes of a name that are shown.
const MOST_NAME: usize = 64;

// What is shown of a byte: one column, which does nothing to a terminal.
fn shown(byte: u8) -> u8 {
    match byte {
        b' '..=b'~' => byte,
        b'\t' => b' ',
        _ => b'?',
    }
}

/// Prints bytes, at most so many of them, each as one character.
pub fn put_shown<O: Sink>(bytes: &[u8], most: usize, out: &mut O) -> Result<(), Failed> {
    for (number, byte) in bytes.iter().enumerate() {
        if number >= most {
            return put_piece(out, &Piece::Text(".."));
        }
        put_piece(out, &Piece::Name(&[shown(*byte)]))?;
    }
    Ok(())
}

/// Prints names with a comma between two, as far as they are few.
pub fn put_names<O: Sink>(names: &[&[u8]], out: &mut O) -> Result<(), Failed> {
    for (number, name) in names.iter().enumerate() {
        if number > 0 {
            put_piece(out, &Piece::Text(", "))?;
        }
        if number >= MOST_NAMES {
            return put_piece(out, &Piece::Text(".."));
        }
        put_shown(*name, MOST_NAME, out)?;
    }
    Ok(())
}
