//! Lines on files.

ghost use Rattle.std.specs.Prelude.{◌≡◌, take, drop};
ghost use Rattle.acn_print.specs.Printing.{Prints};
ghost use Rattle.acn_source_report.specs.Files as places;
ghost use Rattle.acn_source_report.specs.Texts.{file_line, file_line_with, left_out_words, long_file_line, unreadable_line};

use acn_outside::{Failed, Sink};
use acn_print::{Piece, put_all, put_piece};
use acn_sources::FileFault;

/// Prints the line of a file that can't be read: `acn: cannot read FILE`. It takes no memory.
pub fn put_unreadable<O: Sink>(name: &[u8], out: &mut O) -> Result<(), Failed>
    ensures { Prints (unreadable_line name.now) (O.taken out.old, O.faults out.old) (O.taken out.new, O.faults out.new) result }
{
    put_all(
        out,
        &[
            Piece::Text("acn: cannot read "),
            Piece::Name(name),
            Piece::Text("\n"),
        ],
    )
}

/// Prints the line of a file that is too long: `acn: FILE: FileTooLong`. It takes no memory.
pub fn put_file_too_long<O: Sink>(name: &[u8], out: &mut O) -> Result<(), Failed>
    ensures { Prints (long_file_line name.now) (O.taken out.old, O.faults out.old) (O.taken out.new, O.faults out.new) result }
{
    put_all(
        out,
        &[
            Piece::Text("acn: "),
            Piece::Name(name),
            Piece::Text(": FileTooLong\n"),
        ],
    )
}

fn is_line_feed(byte: u8) -> bool
    ensures { result ≡ places.is_line_feed byte }
{
    byte == b'\n'
}

// The bytes of a file before a place.
fn before(bytes: &[u8], at: usize) -> &[u8]
    ensures { result.now ≡ take at bytes.now }
{
    bytes.get(..at).unwrap_or(bytes)
}

// The number of the line in which the byte with so many before it stands.
fn line_number(bytes: &[u8], at: u32) -> u64
    ensures { result ≡ places.line_number bytes.now at }
{
    let feeds = before(bytes, at as usize)
        .iter()
        .filter(|byte| is_line_feed(**byte))
        .count();
    1 + feeds as u64
}

// The bytes of a token, as far as the file goes.
fn token(bytes: &[u8], at: usize, length: usize) -> &[u8]
    ensures { result.now ≡ take length (drop at bytes.now) }
{
    let rest = bytes.get(at..).unwrap_or(&[]);
    before(rest, length)
}

// Prints the line of a file that is refused at a place, for one word.
fn put_word_at<'a, O: Sink>(
    name: &'a [u8],
    bytes: &[u8],
    at: u32,
    word: &'a str,
    out: &mut O,
) -> Result<(), Failed>
    ensures { Prints (file_line_with name.now bytes.now at word.now) (O.taken out.old, O.faults out.old) (O.taken out.new, O.faults out.new) result }
{
    put_all(
        out,
        &[
            Piece::Text("acn: "),
            Piece::Name(name),
            Piece::Text(":"),
            Piece::Count(line_number(bytes, at)),
            Piece::Text(": "),
            Piece::Text(word),
            Piece::Text("\n"),
        ],
    )
}

// Prints the line of a file in which a word or mark stands that is left out.
fn put_left_out<'a, O: Sink>(
    name: &'a [u8],
    bytes: &'a [u8],
    at: u32,
    length: usize,
    out: &mut O,
) -> Result<(), Failed>
    ensures { Prints (file_line_with name.now bytes.now at (left_out_words bytes.now at length)) (O.taken out.old, O.faults out.old) (O.taken out.new, O.faults out.new) result }
{
    put_all(
        out,
        &[
            Piece::Text("acn: "),
            Piece::Name(name),
            Piece::Text(":"),
            Piece::Count(line_number(bytes, at)),
            Piece::Text(": LeftOut "),
            Piece::Name(token(bytes, at as usize, length)),
            Piece::Text("\n"),
        ],
    )
}

/// Prints the line of a file that has no tree: `acn: FILE:LINE: REASON`, the reason with the word that is left out, or that memory ran out. It
/// takes no memory.
///
/// The line is that of the byte at which the fault stands; lines end with a line feed.
pub fn put_file_fault<'a, O: Sink>(
    name: &'a [u8],
    bytes: &'a [u8],
    fault: &FileFault,
    out: &mut O,
) -> Result<(), Failed>
    ensures { Prints (file_line name.now bytes.now fault.now) (O.taken out.old, O.faults out.old) (O.taken out.new, O.faults out.new) result }
{
    match fault {
        FileFault::BadByte { at } => put_word_at(name, bytes, *at, "BadByte", out),
        FileFault::Unclosed { at } => put_word_at(name, bytes, *at, "Unclosed", out),
        FileFault::TooManyTokens { at } => put_word_at(name, bytes, *at, "TooManyTokens", out),
        FileFault::TooWide { at } => put_word_at(name, bytes, *at, "TooWide", out),
        FileFault::LeftOut { at, length } => put_left_out(name, bytes, *at, *length, out),
        FileFault::TooDeep { at } => put_word_at(name, bytes, *at, "TooDeep", out),
        FileFault::Syntax { at } => put_word_at(name, bytes, *at, "Syntax", out),
        FileFault::NoMemory => put_piece(out, &Piece::Text("acn: out of memory\n")),
    }
}
