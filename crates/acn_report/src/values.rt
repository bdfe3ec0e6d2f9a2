//! Lines on values that are refused.

ghost use Rattle.std.specs.Prelude.{[], ◌∷◌};
ghost use Rattle.acn_print.specs.Printing.{Prints};
ghost use Rattle.acn_report.specs.Names.{path_text};
ghost use Rattle.acn_report.specs.Parts.{part_text};
ghost use Rattle.acn_report.specs.Texts.{refused_line, said, unfit_line};

use crate::part::{Part, put_parts};
use acn_num::Path;
use acn_outside::{Failed, Sink};
use acn_tree::{Tree, Unfit, UnfitReason};

// The place in the line of a number.
#[derive(Clone, Copy)]
struct Place<'a> {
    tree: &'a Tree,
    number: u64,
    path: &'a Path,
}

// A name, and what is kept.
fn put_kept<'a, O: Sink>(
    out: &mut O,
    place: &Place<'a>,
    name: &'a str,
    kept: &Part<'a>,
) -> Result<(), Failed>
    ensures { Prints (refused_line place.now.number (path_text place.now.tree.now place.now.path.now) (said name.now (part_text kept.now ∷ []))) (O.taken out.old, O.faults out.old) (O.taken out.new, O.faults out.new) result }
{
    put_parts(
        out,
        &[
            Part::Text("acn: line "),
            Part::Count(place.number),
            Part::Text(": "),
            Part::Path(place.tree, place.path),
            Part::Text(": "),
            Part::Text(name),
            Part::Text(" "),
            *kept,
            Part::Text("\n"),
        ],
    )
}

/// Prints the line of the value of a number, from 1, that isn't one of the tree's, or can't be written. It takes no memory.
pub fn put_unfit<'a, O: Sink>(
    tree: &'a Tree,
    number: u64,
    fault: &'a Unfit,
    out: &mut O,
) -> Result<(), Failed>
    ensures { Prints (unfit_line tree.now number fault.now) (O.taken out.old, O.faults out.old) (O.taken out.new, O.faults out.new) result }
{
    let place = Place {
        tree,
        number,
        path: &fault.path,
    };
    match &fault.reason {
        UnfitReason::OutOfRange { value } => put_kept(
            out,
            &place,
            "OutOfRange",
            &Part::Number(value),
        ),
        UnfitReason::SizeOutOfRange { n } => {
            put_kept(out, &place, "SizeOutOfRange", &Part::Count(*n))
        }
        UnfitReason::BadCharacter { index } => {
            put_kept(out, &place, "BadCharacter", &Part::Count(*index))
        }
        UnfitReason::TerminatorInside { index } => {
            put_kept(out, &place, "TerminatorInside", &Part::Count(*index))
        }
        UnfitReason::Conflict {
            slot,
            earlier,
            wanted,
        } => put_parts(
            out,
            &[
                Part::Text("acn: line "),
                Part::Count(number),
                Part::Text(": "),
                Part::Path(tree, &fault.path),
                Part::Text(": Conflict "),
                Part::Path(tree, slot),
                Part::Text(" "),
                Part::Earlier(earlier),
                Part::Text(" "),
                Part::Asked(wanted),
                Part::Text("\n"),
            ],
        ),
        UnfitReason::ContentSize { octets } => {
            put_kept(out, &place, "ContentSize", &Part::Count(*octets))
        }
    }
}
