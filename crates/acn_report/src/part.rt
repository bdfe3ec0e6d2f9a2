//! Parts of lines.

ghost use Rattle.std.specs.Prelude.{[], ◌∷◌, codes};
ghost use Rattle.std.specs.Fmt.{signed_decimal};
ghost use Rattle.std.specs.List.{concat, flat_map};
ghost use Rattle.acn_print.specs.Printing.{Prints};
ghost use Rattle.acn_report.specs.Names.{alternative_text};
ghost use Rattle.acn_report.specs.Parts.{ask_text, earlier_text, part_text, reason_text};
ghost use Rattle.acn_report.specs.Slots.{slot_names, slot_text};

use crate::digits::{put_bits, put_hex};
use crate::path::{put_names, put_path, put_place};
use crate::slots::{alternative_at, slot_path};
use acn_num::Path;
use acn_outside::{Failed, Sink};
use acn_print::{Piece, put_all, put_piece};
use acn_tree::{Ask, Reason, Tree};

/// A part of a line.
#[derive(Clone, Copy)]
pub enum Part<'a> {
    /// This text.
    Text(&'a str),
    /// A name, as it stands in the sources.
    Name(&'a [u8]),
    /// A count or a place.
    Count(u64),
    /// A number.
    Number(&'a i128),
    /// A path of a tree.
    Path(&'a Tree, &'a Path),
    /// The place of a node in its tree: its path, with `[]` for the elements of a list.
    Place(&'a Tree, &'a Path),
    /// The field whose number a slot is, by its path; `-` where there is none.
    Slot(&'a Tree, u32),
    /// The same by the names of its path alone, joined by full stops.
    SlotNames(&'a Tree, u32),
    /// The name of an alternative of the CHOICE at a path; `-` where there is none.
    Alternative(&'a Tree, &'a Path, u32),
    /// Bits as 0 and 1.
    Bits(&'a [bool]),
    /// Bits as hexadecimal digits, four a digit.
    Hex(&'a [bool]),
    /// Why a node can't be read.
    Reason(&'a Reason),
    /// What was asked before, `-` where it is nothing.
    Earlier(&'a Option<Ask>),
    /// What is asked.
    Asked(&'a Ask),
}

fn put_out_of_range<O: Sink>(out: &mut O, wire: &i128) -> Result<(), Failed>
    ensures { Prints (concat (codes "OutOfRange " ∷ signed_decimal wire.now ∷ [])) (O.taken out.old, O.faults out.old) (O.taken out.new, O.faults out.new) result }
{
    put_all(out, &[Piece::Text("OutOfRange "), Piece::Number(*wire)])
}

fn put_reason<O: Sink>(out: &mut O, reason: &Reason) -> Result<(), Failed>
    ensures { Prints (reason_text reason.now) (O.taken out.old, O.faults out.old) (O.taken out.new, O.faults out.new) result }
{
    match reason {
        Reason::Short => put_piece(out, &Piece::Text("Short")),
        Reason::OutOfRange { wire } => put_out_of_range(out, wire),
        Reason::NotMinimal => put_piece(out, &Piece::Text("NotMinimal")),
        Reason::BadDigit => put_piece(out, &Piece::Text("BadDigit")),
        Reason::BadCharacter => put_piece(out, &Piece::Text("BadCharacter")),
        Reason::BadPattern => put_piece(out, &Piece::Text("BadPattern")),
        Reason::TooLong => put_piece(out, &Piece::Text("TooLong")),
        Reason::SizeOutOfRange { n } => {
            put_all(out, &[Piece::Text("SizeOutOfRange "), Piece::Count(*n)])
        }
        Reason::NoAlternative => put_piece(out, &Piece::Text("NoAlternative")),
        Reason::ContentSize { octets, used } => put_all(
            out,
            &[
                Piece::Text("ContentSize "),
                Piece::Count(*octets),
                Piece::Text(" "),
                Piece::Count(*used),
            ],
        ),
        Reason::PastContent => put_piece(out, &Piece::Text("PastContent")),
    }
}

fn put_ask<O: Sink>(out: &mut O, ask: &Ask) -> Result<(), Failed>
    ensures { Prints (ask_text ask.now) (O.taken out.old, O.faults out.old) (O.taken out.new, O.faults out.new) result }
{
    match ask {
        Ask::Equal(number) => put_all(out, &[Piece::Text("="), Piece::Number(*number)]),
        Ask::Avoid(number) => put_all(out, &[Piece::Text("!="), Piece::Number(*number)]),
    }
}

fn put_earlier<O: Sink>(out: &mut O, ask: &Option<Ask>) -> Result<(), Failed>
    ensures { Prints (earlier_text ask.now) (O.taken out.old, O.faults out.old) (O.taken out.new, O.faults out.new) result }
{
    match ask {
        Some(ask) => put_ask(out, ask),
        None => put_piece(out, &Piece::Text("-")),
    }
}

fn put_slot<O: Sink>(out: &mut O, tree: &Tree, slot: u32) -> Result<(), Failed>
    ensures { Prints (slot_text tree.now slot) (O.taken out.old, O.faults out.old) (O.taken out.new, O.faults out.new) result }
{
    match slot_path(tree, slot) {
        Some(path) => put_path(tree, &path, out),
        None => put_piece(out, &Piece::Text("-")),
    }
}

fn put_slot_names<O: Sink>(out: &mut O, tree: &Tree, slot: u32) -> Result<(), Failed>
    ensures { Prints (slot_names tree.now slot) (O.taken out.old, O.faults out.old) (O.taken out.new, O.faults out.new) result }
{
    match slot_path(tree, slot) {
        Some(path) => put_names(tree, &path, out),
        None => put_piece(out, &Piece::Text("-")),
    }
}

fn put_alternative<O: Sink>(
    out: &mut O,
    tree: &Tree,
    path: &Path,
    number: u32,
) -> Result<(), Failed>
    ensures { Prints (alternative_text tree.now path.now number) (O.taken out.old, O.faults out.old) (O.taken out.new, O.faults out.new) result }
{
    match alternative_at(tree, path, number) {
        Some(name) => put_piece(out, &Piece::Name(name.bytes())),
        None => put_piece(out, &Piece::Text("-")),
    }
}

fn put<O: Sink>(out: &mut O, part: &Part<'_>) -> Result<(), Failed>
    ensures { Prints (part_text part.now) (O.taken out.old, O.faults out.old) (O.taken out.new, O.faults out.new) result }
{
    match part {
        Part::Text(text) => put_piece(out, &Piece::Text(*text)),
        Part::Name(name) => put_piece(out, &Piece::Name(*name)),
        Part::Count(count) => put_piece(out, &Piece::Count(*count)),
        Part::Number(number) => put_piece(out, &Piece::Number(**number)),
        Part::Path(tree, path) => put_path(*tree, *path, out),
        Part::Place(tree, path) => put_place(*tree, *path, out),
        Part::Slot(tree, slot) => put_slot(out, *tree, *slot),
        Part::SlotNames(tree, slot) => put_slot_names(out, *tree, *slot),
        Part::Alternative(tree, path, number) => put_alternative(out, *tree, *path, *number),
        Part::Bits(bits) => put_bits(out, *bits),
        Part::Hex(bits) => put_hex(out, *bits),
        Part::Reason(reason) => put_reason(out, *reason),
        Part::Earlier(ask) => put_earlier(out, *ask),
        Part::Asked(ask) => put_ask(out, *ask),
    }
}

/// Prints the parts one behind the other. It takes no memory.
pub fn put_parts<O: Sink>(out: &mut O, parts: &[Part<'_>]) -> Result<(), Failed>
    ensures { Prints (flat_map part_text parts.now) (O.taken out.old, O.faults out.old) (O.taken out.new, O.faults out.new) result }
{
    for part in parts {
        put(out, part)?;
    }
    Ok(())
}
