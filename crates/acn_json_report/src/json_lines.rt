//! Lines on lines of JSON.

ghost use Rattle.std.specs.Prelude.{[], ◌∷◌, codes};
ghost use Rattle.std.specs.Fmt.{decimal};
ghost use Rattle.acn_print.specs.Printing.{Prints};
ghost use Rattle.acn_report.specs.Names.{path_text};
ghost use Rattle.acn_report.specs.Texts.{refused_line, said};
ghost use Rattle.acn_json_report.specs.JsonTexts.{json_line, not_json_line};

use acn_json::JsonFault;
use acn_num::Path;
use acn_outside::{Failed, Sink};
use acn_report::{Part, put_no_memory, put_parts};
use acn_tree::Tree;

// What is refused in the line of a number.
#[derive(Clone, Copy)]
struct Place<'a> {
    tree: &'a Tree,
    number: u64,
    path: &'a Path,
}

fn put_not_json<O: Sink>(out: &mut O, number: u64) -> Result<(), Failed>
    ensures { Prints (not_json_line number) (O.taken out.old, O.faults out.old) (O.taken out.new, O.faults out.new) result }
{
    put_parts(
        out,
        &[
            Part::Text("acn: line "),
            Part::Count(number),
            Part::Text(": NotJson\n"),
        ],
    )
}

fn put_at<'a, O: Sink>(out: &mut O, place: &Place<'a>, name: &'a str) -> Result<(), Failed>
    ensures { Prints (refused_line place.now.number (path_text place.now.tree.now place.now.path.now) (said name.now [])) (O.taken out.old, O.faults out.old) (O.taken out.new, O.faults out.new) result }
{
    put_parts(
        out,
        &[
            Part::Text("acn: line "),
            Part::Count(place.number),
            Part::Text(": "),
            Part::Path(place.tree, place.path),
            Part::Text(": "),
            Part::Text(name),
            Part::Text("\n"),
        ],
    )
}

fn put_unknown<'a, O: Sink>(out: &mut O, place: &Place<'a>, member: u32) -> Result<(), Failed>
    ensures { Prints (refused_line place.now.number (path_text place.now.tree.now place.now.path.now) (said (codes "UnknownMember") (decimal member ∷ []))) (O.taken out.old, O.faults out.old) (O.taken out.new, O.faults out.new) result }
{
    put_parts(
        out,
        &[
            Part::Text("acn: line "),
            Part::Count(place.number),
            Part::Text(": "),
            Part::Path(place.tree, place.path),
            Part::Text(": UnknownMember "),
            Part::Count(u64::from(member)),
            Part::Text("\n"),
        ],
    )
}

/// Prints the line of the line of JSON of a number, from 1, that gives no value: `acn: line NUMBER: PATH: NAME`, and behind `UnknownMember`
/// the place of the member, from 0. `NotJson` has no path. Want of memory is the line `acn: out of memory`. It takes no memory.
pub fn put_json_fault<'a, O: Sink>(
    tree: &'a Tree,
    number: u64,
    fault: &'a JsonFault,
    out: &mut O,
) -> Result<(), Failed>
    ensures { Prints (json_line tree.now number fault.now) (O.taken out.old, O.faults out.old) (O.taken out.new, O.faults out.new) result }
{
    match fault {
        JsonFault::NotJson => put_not_json(out, number),
        JsonFault::Shape { path } => put_at(out, &Place { tree, number, path }, "Shape"),
        JsonFault::UnknownMember { path, member } => {
            put_unknown(out, &Place { tree, number, path }, *member)
        }
        JsonFault::MissingMember { path } => {
            put_at(out, &Place { tree, number, path }, "MissingMember")
        }
        JsonFault::NoMemory => put_no_memory(out),
    }
}
