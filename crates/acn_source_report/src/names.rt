//! Lines on names.

ghost use Rattle.std.specs.Prelude.{codes};
ghost use Rattle.acn_print.specs.Printing.{Prints};
ghost use Rattle.acn_source_report.specs.Texts.{name_line, name_line_with, no_module_line};

use acn_num::Name;
use acn_outside::{Failed, Sink};
use acn_print::{Piece, put_all, put_piece};
use acn_world::NameFault;

fn put_name<'a, O: Sink>(
    word: &'a str,
    module: &'a Name,
    name: &'a Name,
    out: &mut O,
) -> Result<(), Failed>
    ensures { Prints (name_line_with word.now «module».now name.now) (O.taken out.old, O.faults out.old) (O.taken out.new, O.faults out.new) result }
{
    put_all(
        out,
        &[
            Piece::Text("acn: names: "),
            Piece::Text(word),
            Piece::Text(" "),
            Piece::Name(module.bytes()),
            Piece::Text("."),
            Piece::Name(name.bytes()),
            Piece::Text("\n"),
        ],
    )
}

fn put_no_module<O: Sink>(name: &Name, out: &mut O) -> Result<(), Failed>
    ensures { Prints (no_module_line name.now) (O.taken out.old, O.faults out.old) (O.taken out.new, O.faults out.new) result }
{
    put_all(
        out,
        &[
            Piece::Text("acn: names: NoModule "),
            Piece::Name(name.bytes()),
            Piece::Text("\n"),
        ],
    )
}

/// Prints the line of a name that leads nowhere: `acn: names: REASON MODULE.NAME`, and of a module that isn't there its name alone; or that
/// memory ran out. It takes no memory.
pub fn put_name_fault<O: Sink>(fault: &NameFault, out: &mut O) -> Result<(), Failed>
    ensures { Prints (name_line fault.now) (O.taken out.old, O.faults out.old) (O.taken out.new, O.faults out.new) result }
{
    match fault {
        NameFault::Unknown { module, name } => put_name("Unknown", module, name, out),
        NameFault::Repeated { module, name } => put_name("Repeated", module, name, out),
        NameFault::NoModule { module, name } => {
            let _module = module;
            put_no_module(name, out)
        }
        NameFault::Cycle { module, name, .. } => put_name("Cycle", module, name, out),
        NameFault::WrongKind { module, name } => put_name("WrongKind", module, name, out),
        NameFault::NoMemory => put_piece(out, &Piece::Text("acn: out of memory\n")),
    }
}

/// Prints the line of a type that isn't there: `acn: names: Unknown MODULE.NAME`. It takes no memory.
pub fn put_unknown_type<'a, O: Sink>(
    module: &'a [u8],
    name: &'a [u8],
    out: &mut O,
) -> Result<(), Failed>
    ensures { Prints (name_line_with (codes "Unknown") «module».now name.now) (O.taken out.old, O.faults out.old) (O.taken out.new, O.faults out.new) result }
{
    put_all(
        out,
        &[
            Piece::Text("acn: names: Unknown "),
            Piece::Name(module),
            Piece::Text("."),
            Piece::Name(name),
            Piece::Text("\n"),
        ],
    )
}
