//! Sets of numbers.

use acn_advice::put_shown;
use acn_num::RangeSet;
use acn_outside::{Failed, Sink};
use acn_print::{Piece, put_all, put_piece};

// The most ranges of a set that are shown.
const MOST_RANGES: usize = 8;

// Prints the comma before a range, or the end of a list that is too long. False comes where nothing
// more is shown.
fn put_between<O: Sink>(number: usize, out: &mut O) -> Result<bool, Failed> {
    if number == 0 {
        return Ok(true);
    }
    put_piece(out, &Piece::Text(", "))?;
    if number < MOST_RANGES {
        return Ok(true);
    }
    put_piece(out, &Piece::Text(".."))?;
    Ok(false)
}

fn put_range<O: Sink>(low: i128, high: i128, out: &mut O) -> Result<(), Failed> {
    if low == high {
        return put_piece(out, &Piece::Number(low));
    }
    put_all(
        out,
        &[Piece::Number(low), Piece::Text(".."), Piece::Number(high)],
    )
}

/// Prints the ranges of a set with a comma between two, as far as they are few.
pub fn put_ranges<O: Sink>(set: &RangeSet, out: &mut O) -> Result<(), Failed> {
    for (number, range) in set.ranges().iter().enumerate() {
        if !put_between(number, out)? {
            return Ok(());
        }
        put_range(range.0, range.1, out)?;
    }
    Ok(())
}

// Prints a character in quotes, or the number of one that shows nothing.
fn put_character<O: Sink>(number: i128, out: &mut O) -> Result<(), Failed> {
    if 33 <= number && number <= 126 {
        put_piece(out, &Piece::Text("'"))?;
        put_shown(&[number as u8], 1, out)?;
        return put_piece(out, &Piece::Text("'"));
    }
    put_all(out, &[Piece::Text("number "), Piece::Number(number)])
}

/// Prints the characters of a set in the same way.
pub fn put_character_ranges<O: Sink>(set: &RangeSet, out: &mut O) -> Result<(), Failed> {
    for (number, range) in set.ranges().iter().enumerate() {
        if !put_between(number, out)? {
            return Ok(());
        }
        put_character(range.0, out)?;
        if range.0 != range.1 {
            put_piece(out, &Piece::Text(" to "))?;
            put_character(range.1, out)?;
        }
    }
    Ok(())
}
