//! Marks, and names, as lines of a page.

use acn_advice::{nearest, put_marked, put_names, put_shown};
use acn_marks::{Mark, Source};
use acn_outside::{Failed, Sink};
use acn_print::{Piece, put_piece};

// The most bytes of a name that are shown.
const MOST_NAME: usize = 64;

/// Prints a token's place, what is said of it, and its line with a mark.
pub fn put_mark<O: Sink>(
    sources: &[Source<'_>],
    mark: Mark,
    told: &str,
    out: &mut O,
) -> Result<(), Failed> {
    match sources.get(mark.source) {
        Some(source) => put_marked(
            source.name,
            source.bytes,
            source.place(mark.token),
            told,
            out,
        ),
        None => Ok(()),
    }
}

/// Prints the name that is the nearest to one, if one is near.
pub fn put_nearest<O: Sink>(name: &[u8], names: &[&[u8]], out: &mut O) -> Result<(), Failed> {
    match nearest(name, names) {
        Some(near) => {
            put_piece(out, &Piece::Text("  the nearest name is '"))?;
            put_shown(near, MOST_NAME, out)?;
            put_piece(out, &Piece::Text("'\n"))
        }
        None => Ok(()),
    }
}

/// Prints what there is, by its names.
pub fn put_list<O: Sink>(told: &str, names: &[&[u8]], out: &mut O) -> Result<(), Failed> {
    if names.is_empty() {
        return Ok(());
    }
    put_piece(out, &Piece::Text(told))?;
    put_names(names, out)?;
    put_piece(out, &Piece::Text("\n"))
}
