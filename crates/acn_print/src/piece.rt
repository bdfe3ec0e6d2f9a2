//! Pieces of texts.

ghost use Rattle.std.specs.List.{flat_map};
ghost use Rattle.std.specs.Fmt.{decimal, signed_decimal};
ghost use Rattle.acn_print.specs.Printing.{Prints, piece_text};

use acn_outside::{Failed, Sink, write_all};
use itoa::Buffer;

/// A piece of a text.
#[derive(Clone, Copy)]
pub enum Piece<'a> {
    /// This text.
    Text(&'a str),
    /// A name, as it stands in the sources.
    Name(&'a [u8]),
    /// A count or a place, in decimal digits.
    Count(u64),
    /// A number in decimal digits, with `-` in front of a negative one.
    Number(i128),
}

fn put_count<O: Sink>(out: &mut O, count: u64) -> Result<(), Failed>
    ensures { Prints (decimal count) (O.taken out.old, O.faults out.old) (O.taken out.new, O.faults out.new) result }
{
    let mut buffer = Buffer::new();
    write_all(out, buffer.format(count).as_bytes())
}

fn put_number<O: Sink>(out: &mut O, number: i128) -> Result<(), Failed>
    ensures { Prints (signed_decimal number) (O.taken out.old, O.faults out.old) (O.taken out.new, O.faults out.new) result }
{
    let mut buffer = Buffer::new();
    write_all(out, buffer.format(number).as_bytes())
}

/// Prints a piece. It takes no memory. The answers are those of `put_all`.
pub fn put_piece<O: Sink>(out: &mut O, piece: &Piece<'_>) -> Result<(), Failed>
    ensures { Prints (piece_text piece.now) (O.taken out.old, O.faults out.old) (O.taken out.new, O.faults out.new) result }
{
    match piece {
        Piece::Text(text) => write_all(out, text.as_bytes()),
        Piece::Name(name) => write_all(out, *name),
        Piece::Count(count) => put_count(out, *count),
        Piece::Number(number) => put_number(out, *number),
    }
}

/// Prints the pieces one behind the other. It takes no memory.
///
/// On Ok the output gained exactly their text. `Failed` comes only where the count of the output's faults rose in this call, and then
/// a front of the text was gained.
pub fn put_all<O: Sink>(out: &mut O, pieces: &[Piece<'_>]) -> Result<(), Failed>
    ensures { Prints (flat_map piece_text pieces.now) (O.taken out.old, O.faults out.old) (O.taken out.new, O.faults out.new) result }
{
    for piece in pieces {
        put_piece(out, piece)?;
    }
    Ok(())
}
