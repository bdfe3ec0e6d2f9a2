//! Octets of a recording, in hexadecimal.

use acn_outside::{Failed, Sink};
use acn_print::{Piece, put_all, put_piece};

// The most octets that are shown before the one in question, and from it on.
const MOST_BEFORE: usize = 8;

const MOST_BEHIND: usize = 8;

// The hexadecimal digit of a number below 16.
fn digit(number: u8) -> u8 {
    if number < 10 {
        b'0'.saturating_add(number)
    } else {
        b'a'.saturating_add(number.saturating_sub(10))
    }
}

fn put_octet<O: Sink>(octet: u8, out: &mut O) -> Result<(), Failed> {
    put_piece(
        out,
        &Piece::Name(&[b' ', digit(octet / 16), digit(octet % 16)]),
    )
}

fn put_octets<O: Sink>(octets: &[u8], most: usize, out: &mut O) -> Result<(), Failed> {
    for (number, octet) in octets.iter().enumerate() {
        if number >= most {
            return Ok(());
        }
        put_octet(*octet, out)?;
    }
    Ok(())
}

// Prints three blanks for each.
fn put_blanks<O: Sink>(octets: &[u8], out: &mut O) -> Result<(), Failed> {
    for _ in octets {
        put_piece(out, &Piece::Text("   "))?;
    }
    Ok(())
}

/// Prints the octets round a place, and a mark below the one there: two lines. Where the recording
/// ends there, the mark stands behind it.
pub fn put_round<O: Sink>(bytes: &[u8], at: usize, out: &mut O) -> Result<(), Failed> {
    let (before, behind) = bytes.split_at(at.min(bytes.len()));
    let tail = before
        .get(before.len().saturating_sub(MOST_BEFORE)..)
        .unwrap_or(before);
    put_piece(out, &Piece::Text("   "))?;
    put_octets(tail, MOST_BEFORE, out)?;
    put_octets(behind, MOST_BEHIND, out)?;
    put_piece(out, &Piece::Text("\n   "))?;
    put_blanks(tail, out)?;
    put_all(out, &[Piece::Text(" ^^\n")])
}
