//! Lines on faults of the checker.

ghost use Rattle.std.specs.Prelude.{[], ◌∷◌, codes};
ghost use Rattle.std.specs.Fmt.{decimal};
ghost use Rattle.std.specs.List.{flat_map};
ghost use Rattle.acn_print.specs.Printing.{Prints};
ghost use Rattle.acn_report.specs.CheckTexts.{check_line, no_memory_line, overlap_line, spaced_pair};
ghost use Rattle.acn_report.specs.Names.{alternative_text, path_text};
ghost use Rattle.acn_report.specs.Parts.{part_text};
ghost use Rattle.acn_report.specs.Texts.{refused_at, said};

use crate::part::{Part, put_parts};
use acn_num::Path;
use acn_outside::{Failed, Sink};
use acn_print::{Piece, put_piece};
use acn_tree::{CheckFault, Tree};

// A name behind a place, with nothing kept.
fn put_bare<'a, O: Sink>(out: &mut O, place: &Part<'a>, name: &'a str) -> Result<(), Failed>
    ensures { Prints (refused_at (part_text place.now) (said name.now [])) (O.taken out.old, O.faults out.old) (O.taken out.new, O.faults out.new) result }
{
    put_parts(
        out,
        &[
            Part::Text("acn: "),
            *place,
            Part::Text(": "),
            Part::Text(name),
            Part::Text("\n"),
        ],
    )
}

// A name behind a place, and what is kept.
fn put_kept<'a, O: Sink>(
    out: &mut O,
    place: &Part<'a>,
    name: &'a str,
    kept: &Part<'a>,
) -> Result<(), Failed>
    ensures { Prints (refused_at (part_text place.now) (said name.now (part_text kept.now ∷ []))) (O.taken out.old, O.faults out.old) (O.taken out.new, O.faults out.new) result }
{
    put_parts(
        out,
        &[
            Part::Text("acn: "),
            *place,
            Part::Text(": "),
            Part::Text(name),
            Part::Text(" "),
            *kept,
            Part::Text("\n"),
        ],
    )
}

// A fault at a path.
fn put_at<'a, O: Sink>(
    out: &mut O,
    tree: &'a Tree,
    path: &'a Path,
    name: &'a str,
) -> Result<(), Failed>
    ensures { Prints (refused_at (path_text tree.now path.now) (said name.now [])) (O.taken out.old, O.faults out.old) (O.taken out.new, O.faults out.new) result }
{
    put_bare(out, &Part::Path(tree, path), name)
}

// A fault of a use, with the field that it names.
fn put_use<'a, O: Sink>(
    out: &mut O,
    tree: &'a Tree,
    user: &'a Path,
    name: &'a str,
    det: &'a Path,
) -> Result<(), Failed>
    ensures { Prints (refused_at (path_text tree.now user.now) (said name.now (path_text tree.now det.now ∷ []))) (O.taken out.old, O.faults out.old) (O.taken out.new, O.faults out.new) result }
{
    put_kept(out, &Part::Path(tree, user), name, &Part::Path(tree, det))
}

// A limit that a node is beyond.
fn put_count<'a, O: Sink>(
    out: &mut O,
    tree: &'a Tree,
    path: &'a Path,
    name: &'a str,
    count: u32,
) -> Result<(), Failed>
    ensures { Prints (refused_at (path_text tree.now path.now) (said name.now (decimal count ∷ []))) (O.taken out.old, O.faults out.old) (O.taken out.new, O.faults out.new) result }
{
    put_kept(
        out,
        &Part::Path(tree, path),
        name,
        &Part::Count(u64::from(count)),
    )
}

// A limit that the whole tree is beyond.
fn put_limit<'a, O: Sink>(
    out: &mut O,
    tree: &'a Tree,
    name: &'a str,
    count: u64,
) -> Result<(), Failed>
    ensures { Prints (refused_at tree.now.name (said name.now (decimal count ∷ []))) (O.taken out.old, O.faults out.old) (O.taken out.new, O.faults out.new) result }
{
    put_kept(
        out,
        &Part::Name(tree.name().bytes()),
        name,
        &Part::Count(count),
    )
}

fn put_no_item<'a, O: Sink>(
    out: &mut O,
    tree: &'a Tree,
    choice: &'a Path,
    number: u32,
) -> Result<(), Failed>
    ensures { Prints (refused_at (path_text tree.now choice.now) (said (codes "NoItem") (alternative_text tree.now choice.now number ∷ []))) (O.taken out.old, O.faults out.old) (O.taken out.new, O.faults out.new) result }
{
    put_kept(
        out,
        &Part::Path(tree, choice),
        "NoItem",
        &Part::Alternative(tree, choice, number),
    )
}

fn put_pair<'a, O: Sink>(
    out: &mut O,
    tree: &'a Tree,
    slot: u32,
    number: &'a i128,
) -> Result<(), Failed>
    ensures { Prints (spaced_pair tree.now (slot, number.now)) (O.taken out.old, O.faults out.old) (O.taken out.new, O.faults out.new) result }
{
    put_parts(
        out,
        &[
            Part::Text(" "),
            Part::Slot(tree, slot),
            Part::Text("="),
            Part::Number(number),
        ],
    )
}

// The numbers of slots under which two alternatives hold.
fn put_pairs<'a, O: Sink>(
    out: &mut O,
    tree: &'a Tree,
    pairs: &'a [(u32, i128)],
) -> Result<(), Failed>
    ensures { Prints (flat_map (spaced_pair tree.now) pairs.now) (O.taken out.old, O.faults out.old) (O.taken out.new, O.faults out.new) result }
{
    for pair in pairs {
        put_pair(out, tree, pair.0, &pair.1)?;
    }
    Ok(())
}

fn put_overlap<'a, O: Sink>(
    out: &mut O,
    tree: &'a Tree,
    choice: &'a Path,
    both: (u32, u32),
    pairs: &'a [(u32, i128)],
) -> Result<(), Failed>
    ensures { Prints (overlap_line tree.now choice.now both.0 both.1 pairs.now) (O.taken out.old, O.faults out.old) (O.taken out.new, O.faults out.new) result }
{
    put_parts(
        out,
        &[
            Part::Text("acn: "),
            Part::Path(tree, choice),
            Part::Text(": Overlap "),
            Part::Alternative(tree, choice, both.0),
            Part::Text(" "),
            Part::Alternative(tree, choice, both.1),
        ],
    )?;
    put_pairs(out, tree, pairs)?;
    put_piece(out, &Piece::Text("\n"))
}

/// Prints that memory ran out. It takes no memory.
pub fn put_no_memory<O: Sink>(out: &mut O) -> Result<(), Failed>
    ensures { Prints no_memory_line (O.taken out.old, O.faults out.old) (O.taken out.new, O.faults out.new) result }
{
    put_piece(out, &Piece::Text("acn: out of memory\n"))
}

/// Prints the line of a fault of the checker: `acn: PATH: NAME`, and behind it what is kept beside the path. A determinant is printed as
/// its path, an alternative as its name, the number of a slot as `PATH=NUMBER`. The faults of a determinant alone stand at its field,
/// `TooLong` and `TooManyValues` at the type. Want of memory is the line `acn: out of memory`. It takes no memory.
pub fn put_check_fault<'a, O: Sink>(
    tree: &'a Tree,
    fault: &'a CheckFault,
    out: &mut O,
) -> Result<(), Failed>
    ensures { Prints (check_line tree.now fault.now) (O.taken out.old, O.faults out.old) (O.taken out.new, O.faults out.new) result }
{
    match fault {
        CheckFault::Forward { user, det } => put_use(out, tree, user, "Forward", det),
        CheckFault::DetKind { user, det } => put_use(out, tree, user, "DetKind", det),
        CheckFault::DetWidth { det } => put_at(out, tree, det, "DetWidth"),
        CheckFault::Overlap {
            choice,
            first,
            second,
            values,
        } => put_overlap(out, tree, choice, (*first, *second), values.items()),
        CheckFault::AbsentUnclear { at } => put_at(out, tree, at, "AbsentUnclear"),
        CheckFault::Unused { det } => put_at(out, tree, det, "Unused"),
        CheckFault::NoItem {
            choice,
            alternative,
        } => put_no_item(out, tree, choice, *alternative),
        CheckFault::MixedChoice { choice } => put_at(out, tree, choice, "MixedChoice"),
        CheckFault::TooLong { bits } => put_limit(out, tree, "TooLong", *bits),
        CheckFault::TooManyOpen { at, count } => put_count(out, tree, at, "TooManyOpen", *count),
        CheckFault::TooManyConditions { det, count } => {
            put_count(out, tree, det, "TooManyConditions", *count)
        }
        CheckFault::TooManyValues { count } => put_limit(out, tree, "TooManyValues", *count),
        CheckFault::TerminatorAmbiguous { list } => {
            put_at(out, tree, list, "TerminatorAmbiguous")
        }
        CheckFault::NoMemory => put_no_memory(out),
    }
}
