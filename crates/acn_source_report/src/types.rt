//! Lines on types.

ghost use Rattle.std.specs.Prelude.{codes, ◌≡◌, ◌∷◌, []};
ghost use Rattle.std.specs.Fmt.{signed_decimal};
ghost use Rattle.std.specs.List.{concat};
ghost use Rattle.acn_print.specs.Printing.{Prints};
ghost use Rattle.acn_source_report.specs.Texts.{refused_line};
ghost use Rattle.acn_source_report.specs.Words as words;

use acn_constraint::ConstraintFault;
use acn_num::Name;
use acn_outside::{Failed, Sink};
use acn_print::{Piece, put_all, put_piece};
use acn_reasons::PathFault;
use acn_sites::AttrKind;
use acn_survey::{MergeReason, Refused};

// An attribute, as it is written.
fn attribute_word(attribute: AttrKind) -> &'static str
    ensures { result.now ≡ words.attribute_word attribute }
{
    match attribute {
        AttrKind::Size => "size",
        AttrKind::Encoding => "encoding",
        AttrKind::Endianness => "endianness",
        AttrKind::AlignToNext => "align-to-next",
        AttrKind::EncodeValues => "encode-values",
        AttrKind::TrueValue => "true-value",
        AttrKind::FalseValue => "false-value",
        AttrKind::Pattern => "pattern",
        AttrKind::TerminationPattern => "termination-pattern",
        AttrKind::PresentWhen => "present-when",
        AttrKind::Determinant => "determinant",
        AttrKind::MappingFunction => "mapping-function",
    }
}

fn put_number<O: Sink>(word: &str, number: &i128, out: &mut O) -> Result<(), Failed>
    ensures { Prints (concat (word.now ∷ signed_decimal number.now ∷ [])) (O.taken out.old, O.faults out.old) (O.taken out.new, O.faults out.new) result }
{
    put_all(out, &[Piece::Text(word), Piece::Number(*number)])
}

fn put_attribute<O: Sink>(word: &str, attribute: AttrKind, out: &mut O) -> Result<(), Failed>
    ensures { Prints (concat (word.now ∷ words.attribute_word attribute ∷ [])) (O.taken out.old, O.faults out.old) (O.taken out.new, O.faults out.new) result }
{
    put_all(
        out,
        &[Piece::Text(word), Piece::Text(attribute_word(attribute))],
    )
}

fn put_items<'a, O: Sink>(first: &'a Name, second: &'a Name, out: &mut O) -> Result<(), Failed>
    ensures { Prints (concat (codes "EnumValues " ∷ first.now ∷ codes " " ∷ second.now ∷ [])) (O.taken out.old, O.faults out.old) (O.taken out.new, O.faults out.new) result }
{
    put_all(
        out,
        &[
            Piece::Text("EnumValues "),
            Piece::Name(first.bytes()),
            Piece::Text(" "),
            Piece::Name(second.bytes()),
        ],
    )
}

fn put_constraint<O: Sink>(fault: &ConstraintFault, out: &mut O) -> Result<(), Failed>
    ensures { Prints (words.constraint_words fault.now) (O.taken out.old, O.faults out.old) (O.taken out.new, O.faults out.new) result }
{
    match fault {
        ConstraintFault::Empty => put_piece(out, &Piece::Text("Empty")),
        ConstraintFault::Unbounded => put_piece(out, &Piece::Text("Unbounded")),
        ConstraintFault::TooWide { number } => put_number("TooWide ", number, out),
        ConstraintFault::SizeLimit { size } => put_number("SizeLimit ", size, out),
        ConstraintFault::NotHere => put_piece(out, &Piece::Text("NotHere")),
        ConstraintFault::NoMemory => put_piece(out, &Piece::Text("NoMemory")),
    }
}

fn put_path<O: Sink>(fault: &PathFault, out: &mut O) -> Result<(), Failed>
    ensures { Prints (words.path_words fault.now) (O.taken out.old, O.faults out.old) (O.taken out.new, O.faults out.new) result }
{
    match fault {
        PathFault::Unknown => put_piece(out, &Piece::Text("UnknownPath")),
        PathFault::MayBeAbsent { names, .. } => put_all(
            out,
            &[
                Piece::Text("DeterminantMayBeAbsent "),
                Piece::Name(names.bytes()),
            ],
        ),
    }
}

fn put_reason<O: Sink>(reason: &MergeReason, out: &mut O) -> Result<(), Failed>
    ensures { Prints (words.reason_words reason.now) (O.taken out.old, O.faults out.old) (O.taken out.new, O.faults out.new) result }
{
    match reason {
        MergeReason::TooDeep => put_piece(out, &Piece::Text("TooDeep")),
        MergeReason::TooManyNodes => put_piece(out, &Piece::Text("TooManyNodes")),
        MergeReason::RepeatedAttribute(kind) => put_attribute("RepeatedAttribute ", *kind, out),
        MergeReason::AttributeNotHere(kind) => put_attribute("AttributeNotHere ", *kind, out),
        MergeReason::Constraint(fault) => put_constraint(fault, out),
        MergeReason::NoSuchField => put_piece(out, &Piece::Text("NoSuchField")),
        MergeReason::Arguments => put_piece(out, &Piece::Text("Arguments")),
        MergeReason::Path(fault) => put_path(fault, out),
        MergeReason::BadMapping { key } => put_number("BadMapping ", key, out),
        MergeReason::EnumValues { first, second } => put_items(first, second, out),
        MergeReason::PatternClash => put_piece(out, &Piece::Text("PatternClash")),
        MergeReason::BadSize => put_piece(out, &Piece::Text("BadSize")),
        MergeReason::EndianSize => put_piece(out, &Piece::Text("EndianSize")),
        MergeReason::TooNarrow { value } => put_number("TooNarrow ", value, out),
        MergeReason::BadDefault => put_piece(out, &Piece::Text("BadDefault")),
    }
}

/// Prints the line of a type that can't be made: `acn: PLACE: REASON VALUES`, with the place of the first node that can't and the first of its
/// reasons. It takes no memory.
pub fn put_refused<O: Sink>(refused: &Refused, out: &mut O) -> Result<(), Failed>
    ensures { Prints (refused_line refused.now) (O.taken out.old, O.faults out.old) (O.taken out.new, O.faults out.new) result }
{
    put_all(
        out,
        &[
            Piece::Text("acn: "),
            Piece::Name(refused.place.bytes()),
            Piece::Text(": "),
        ],
    )?;
    put_reason(&refused.reason, out)?;
    put_piece(out, &Piece::Text("\n"))
}
