//! The lines of a packet that is explained.

ghost use Rattle.std.specs.Prelude.{◌≡◌, ◌++◌, IfOk, take, drop};
ghost use Rattle.std.specs.List.{flat_map};
ghost use Rattle.acn_num.specs.Bits.{bits as bits_of, low_bits};
ghost use Rattle.acn_print.specs.Printing.{Prints};
ghost use Rattle.acn_explain.specs.Texts.{packet_line, piece_line};

use acn_num::NoMemory;
use acn_outside::{Failed, Sink};
use acn_pieces::Piece;
use acn_print::{Piece as Words, put_all};
use acn_report::{Part, put_parts};
use acn_tree::Tree;
use std::alloc::Global;

fn octet_bits(octet: u8) -> [bool; 8]
    ensures { result ≡ low_bits 8 octet }
{
    [
        octet / 128 % 2 == 1,
        octet / 64 % 2 == 1,
        octet / 32 % 2 == 1,
        octet / 16 % 2 == 1,
        octet / 8 % 2 == 1,
        octet / 4 % 2 == 1,
        octet / 2 % 2 == 1,
        octet % 2 == 1,
    ]
}

/// The bits of octets, the most significant of each first.
pub fn list_bits(alloc: Global, octets: &[u8]) -> Result<Vec<bool>, NoMemory>
    ensures { IfOk result (λ bits. bits.items ≡ bits_of octets.now) }
{
    let mut bits = Vec::new(alloc);
    for octet in octets {
        bits.extend_from_slice(&octet_bits(*octet))?;
    }
    Ok(bits)
}

// So many bits from a place on, as far as there are.
fn bits_at(bits: &[bool], at: u64, count: u64) -> &[bool]
    ensures { result.now ≡ take count (drop at bits.now) }
{
    let behind = &bits[bits.len().min(at as usize)..];
    &behind[..behind.len().min(count as usize)]
}

fn put_piece<'a, O: Sink>(
    out: &mut O,
    tree: &'a Tree,
    bits: &'a [bool],
    piece: &'a Piece,
) -> Result<(), Failed>
    ensures { Prints (piece_line tree.now bits.now piece.now) (O.taken out.old, O.faults out.old) (O.taken out.new, O.faults out.new) result }
{
    put_parts(
        out,
        &[
            Part::Count(piece.at),
            Part::Text(" "),
            Part::Count(piece.count),
            Part::Text(" "),
            Part::Path(tree, &piece.path),
            Part::Text(" "),
            Part::Text(piece.kind.word()),
            Part::Text(" "),
            Part::Bits(bits_at(bits, piece.at, piece.count)),
            Part::Text("\n"),
        ],
    )
}

fn put_pieces<'a, O: Sink>(
    out: &mut O,
    tree: &'a Tree,
    bits: &'a [bool],
    pieces: &'a [Piece],
) -> Result<(), Failed>
    ensures { Prints (flat_map (piece_line tree.now bits.now) pieces.now) (O.taken out.old, O.faults out.old) (O.taken out.new, O.faults out.new) result }
{
    for piece in pieces {
        put_piece(out, tree, bits, piece)?;
    }
    Ok(())
}

fn put_head<O: Sink>(out: &mut O, number: u64, size: u64) -> Result<(), Failed>
    ensures { Prints (packet_line number size) (O.taken out.old, O.faults out.old) (O.taken out.new, O.faults out.new) result }
{
    put_all(
        out,
        &[
            Words::Text("packet "),
            Words::Count(number),
            Words::Text(" "),
            Words::Count(size),
            Words::Text("\n"),
        ],
    )
}

/// Prints the lines of a packet of so many bits: its number, and then its pieces, whose bits are among these.
pub fn put_packet<'a, O: Sink>(
    out: &mut O,
    tree: &'a Tree,
    number: u64,
    size: u64,
    bits: &'a [bool],
    pieces: &'a [Piece],
) -> Result<(), Failed>
    ensures { Prints (packet_line number size ++ flat_map (piece_line tree.now bits.now) pieces.now) (O.taken out.old, O.faults out.old) (O.taken out.new, O.faults out.new) result }
{
    put_head(out, number, size)?;
    put_pieces(out, tree, bits, pieces)
}
