//! A line of a file, with a mark below one of its bytes.

use crate::place::{behind, first_line, in_front, line_number};
use crate::shown::put_shown;
use acn_outside::{Failed, Sink};
use acn_print::{Piece, put_all, put_piece};

// The most bytes that are shown before the place, and from it on.
const MOST_BEFORE: usize = 60;

const MOST_BEHIND: usize = 40;

// Prints bytes, up to the end of the line or to the most that are shown.
fn put_line_of<O: Sink>(bytes: &[u8], out: &mut O) -> Result<(), Failed> {
    let line = first_line(bytes);
    put_shown(line.get(..MOST_BEHIND).unwrap_or(line), MOST_BEHIND, out)
}

// Prints as many blanks.
fn put_blanks<O: Sink>(bytes: &[u8], out: &mut O) -> Result<(), Failed> {
    for _ in bytes {
        put_piece(out, &Piece::Text(" "))?;
    }
    Ok(())
}

// The last of these bytes, as many as are shown.
fn tail(bytes: &[u8]) -> &[u8] {
    bytes
        .get(bytes.len().saturating_sub(MOST_BEFORE)..)
        .unwrap_or(bytes)
}

/// Prints the line of a place, and a mark below it: two lines.
pub fn put_line_and_mark<O: Sink>(bytes: &[u8], at: usize, out: &mut O) -> Result<(), Failed> {
    let shown = tail(in_front(bytes, at));
    put_piece(out, &Piece::Text("    "))?;
    put_shown(shown, MOST_BEFORE, out)?;
    put_line_of(behind(bytes, at), out)?;
    put_piece(out, &Piece::Text("\n    "))?;
    put_blanks(shown, out)?;
    put_piece(out, &Piece::Text("^\n"))
}

/// Prints the place, what is said of it, and its line with a mark below it: three lines.
pub fn put_marked<'a, O: Sink>(
    name: &'a [u8],
    bytes: &[u8],
    at: usize,
    told: &'a str,
    out: &mut O,
) -> Result<(), Failed> {
    let column = in_front(bytes, at).len() as u64;
    put_all(
        out,
        &[
            Piece::Text("  "),
            Piece::Name(name),
            Piece::Text(":"),
            Piece::Count(line_number(bytes, at)),
            Piece::Text(":"),
            Piece::Count(column.saturating_add(1)),
            Piece::Text(": "),
            Piece::Text(told),
            Piece::Text("\n"),
        ],
    )?;
    put_line_and_mark(bytes, at, out)
}
