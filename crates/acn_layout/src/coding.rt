//! How numbers are written.

ghost use Rattle.std.specs.Prelude.{◌≡◌, [], ◌∷◌, Some};
ghost use Rattle.std.specs.Fmt.{decimal};
ghost use Rattle.std.specs.List.{concat};
ghost use Rattle.acn_grammar.specs.View.{form_of};
ghost use Rattle.acn_layout.specs.Codings.{coding_text, flag_text, if_so, kind_text, leaf_kind, leaf_text, map_text, marks_text, range_text};
ghost use Rattle.acn_print.specs.Printing.{Prints};
ghost use Rattle.acn_report.specs.Digits.{bits_text};

use acn_outside::{Failed, Sink};
use acn_print::{Piece, put_piece};
use acn_report::{Part, put_parts};
use acn_tree::{Body, NumCoding, NumKind, NumLeaf, Pattern, Table};

fn leaf_kind_of(kind: NumKind) -> &'static str
    ensures { result.now ≡ leaf_kind kind }
{
    match kind {
        NumKind::Integer => "INTEGER",
        NumKind::Boolean => "BOOLEAN",
        NumKind::Enumerated => "ENUMERATED",
        NumKind::Null => "NULL",
    }
}

/// What a node is, in a word.
pub fn kind_of(body: &Body) -> &'static str
    ensures { result.now ≡ kind_text (form_of body.now) }
{
    match body {
        Body::Num(leaf) => leaf_kind_of(leaf.kind),
        Body::Octets(_) => "OCTETS",
        Body::Bits(_) => "BITS",
        Body::Text(_) => "TEXT",
        Body::Seq(_) => "SEQUENCE",
        Body::List(_, _) => "LIST",
        Body::Choice(_) => "CHOICE",
        Body::Contained(_, _) => "CONTAINED",
    }
}

/// The words, where they are to stand.
pub fn words_if(stands: bool, words: &'static str) -> &'static str
    ensures { result.now ≡ if_so stands words.now }
{
    if stands { words } else { "" }
}

/// Prints a number of at most 32 bits behind a name.
pub fn put_width<'a, O: Sink>(out: &mut O, name: &'a str, width: u32) -> Result<(), Failed>
    ensures { Prints (concat (name.now ∷ decimal width ∷ [])) (O.taken out.old, O.faults out.old) (O.taken out.new, O.faults out.new) result }
{
    put_parts(out, &[Part::Text(name), Part::Count(u64::from(width))])
}

fn put_word<'a, O: Sink>(out: &mut O, word: &'a str) -> Result<(), Failed>
    ensures { Prints word.now (O.taken out.old, O.faults out.old) (O.taken out.new, O.faults out.new) result }
{
    put_piece(out, &Piece::Text(word))
}

fn put_range<O: Sink>(out: &mut O, kind: NumKind, width: u32) -> Result<(), Failed>
    ensures { Prints (range_text kind width) (O.taken out.old, O.faults out.old) (O.taken out.new, O.faults out.new) result }
{
    match kind {
        NumKind::Integer => put_width(out, "range ", width),
        NumKind::Boolean => put_width(out, "range ", width),
        NumKind::Enumerated => put_width(out, "range ", width),
        NumKind::Null => put_word(out, "empty"),
    }
}

/// Prints a pattern behind a name.
pub fn put_pattern<'a, O: Sink>(
    out: &mut O,
    name: &'a str,
    pattern: &'a Pattern,
) -> Result<(), Failed>
    ensures { Prints (concat (name.now ∷ bits_text pattern.now ∷ [])) (O.taken out.old, O.faults out.old) (O.taken out.new, O.faults out.new) result }
{
    put_parts(out, &[Part::Text(name), Part::Bits(pattern.bits())])
}

fn put_patterns<'a, O: Sink>(out: &mut O, yes: &'a Pattern, no: &'a Pattern) -> Result<(), Failed>
    ensures { Prints (flag_text (Some yes.now) (Some no.now)) (O.taken out.old, O.faults out.old) (O.taken out.new, O.faults out.new) result }
{
    put_parts(
        out,
        &[
            Part::Text("true "),
            Part::Bits(yes.bits()),
            Part::Text(" false "),
            Part::Bits(no.bits()),
        ],
    )
}

// A BOOLEAN's bit, or its patterns.
fn put_flag<'a, O: Sink>(
    out: &mut O,
    yes: &'a Option<Pattern>,
    no: &'a Option<Pattern>,
) -> Result<(), Failed>
    ensures { Prints (flag_text yes.now no.now) (O.taken out.old, O.faults out.old) (O.taken out.new, O.faults out.new) result }
{
    match yes {
        Some(yes) => match no {
            Some(no) => put_patterns(out, yes, no),
            None => put_pattern(out, "true ", yes),
        },
        None => match no {
            Some(no) => put_pattern(out, "false ", no),
            None => put_word(out, "bit"),
        },
    }
}

fn put_coding<'a, O: Sink>(out: &mut O, kind: NumKind, coding: &'a NumCoding) -> Result<(), Failed>
    ensures { Prints (coding_text kind coding.now) (O.taken out.old, O.faults out.old) (O.taken out.new, O.faults out.new) result }
{
    match coding {
        NumCoding::Range { width, .. } => put_range(out, kind, *width),
        NumCoding::CountedFrom { .. } => put_word(out, "counted"),
        NumCoding::CountedSigned => put_word(out, "counted"),
        NumCoding::PosInt(width) => put_width(out, "pos-int ", *width),
        NumCoding::Twos(width) => put_width(out, "twos-complement ", *width),
        NumCoding::Bcd(width) => put_width(out, "BCD ", *width),
        NumCoding::BcdEnded => put_word(out, "BCD ended"),
        NumCoding::Ascii { bits, .. } => put_width(out, "ASCII ", *bits),
        NumCoding::AsciiEnded { .. } => put_word(out, "ASCII ended"),
        NumCoding::Flag { yes, no } => put_flag(out, yes, no),
        NumCoding::Fixed(pattern) => put_pattern(out, "pattern ", pattern),
    }
}

fn put_marks<O: Sink>(out: &mut O, leaf: &NumLeaf) -> Result<(), Failed>
    ensures { Prints (marks_text leaf.now) (O.taken out.old, O.faults out.old) (O.taken out.new, O.faults out.new) result }
{
    put_parts(
        out,
        &[
            Part::Text(words_if(leaf.items.values, " values")),
            Part::Text(words_if(leaf.little, " little")),
        ],
    )
}

fn put_map<'a, O: Sink>(out: &mut O, table: &'a Option<Table>) -> Result<(), Failed>
    ensures { Prints (map_text table.now) (O.taken out.old, O.faults out.old) (O.taken out.new, O.faults out.new) result }
{
    match table {
        Some(table) => put_parts(out, &[Part::Text(" map "), Part::Name(table.name.bytes())]),
        None => Ok(()),
    }
}

/// Prints how a number is written.
pub fn put_leaf<'a, O: Sink>(out: &mut O, leaf: &'a NumLeaf) -> Result<(), Failed>
    ensures { Prints (leaf_text leaf.now) (O.taken out.old, O.faults out.old) (O.taken out.new, O.faults out.new) result }
{
    put_coding(out, leaf.kind, &leaf.coding)?;
    put_marks(out, leaf)?;
    put_map(out, &leaf.table)
}
