//! The lines of all roots. Their trees are made one after the other, so that the largest alone takes memory.

ghost use Rattle.std.specs.Prelude.{◌≡◌, ◌++◌, None, IfOk, IfErr, OnOk};
ghost use Rattle.std.specs.List.{All};
ghost use Rattle.acn_front.specs.Grammars.{IsFirstTypeFault};
ghost use Rattle.acn_index.specs.World as index;
ghost use Rattle.acn_print.specs.Printing.{Prints};
ghost use Rattle.acn_commands.specs.Lines.{ok_line};
ghost use Rattle.acn_commands.specs.Outside.{IsSilent};
ghost use Rattle.acn_commands.specs.Roots.{root_line, AreLinesOf};
ghost use Rattle.acn_commands.specs.Steps as spec;
ghost use Rattle.acn_tree_laws.specs.Laws.{IsOfSources};
ghost use Rattle.acn_world.specs.Viewed.{world_view};

use crate::grammars::type_refused;
use crate::reports::no_memory;
use crate::status::Status;
use acn_check::Checked;
use acn_explain::Buffer;
use acn_front::{TypeFault, grammar_of_type};
use acn_index::TypeId;
use acn_num::NoMemory;
use acn_outside::{Failed, Sink};
use acn_print::{Piece, put_all};
use acn_report::put_bounds;
use acn_world::World;
use std::alloc::Global;

/// What the line of a root says.
#[derive(Clone, Copy)]
pub enum RootLine {
    /// That its packets can be decoded.
    Decodable,
    /// Its two bounds.
    Bounds,
}

fn put_ok<O: Sink>(checked: &Checked, out: &mut O) -> Result<(), Failed>
    ensures { Prints (ok_line checked.now.tree) (O.taken out.old, O.faults out.old) (O.taken out.new, O.faults out.new) result }
{
    put_all(
        out,
        &[
            Piece::Name(checked.tree().name().bytes()),
            Piece::Text(" ok\n"),
        ],
    )
}

// Adds the line of a root.
fn add_line(line: RootLine, checked: &Checked, out: &mut Buffer) -> Result<(), NoMemory>
    ensures { OnOk result (out.new.text.items ≡ out.old.text.items ++ root_line line checked.now.tree) }
{
    let printed = match line {
        RootLine::Decodable => put_ok(checked, out),
        RootLine::Bounds => put_bounds(checked, out),
    };
    match printed {
        Ok(()) => Ok(()),
        Err(_) => Err(NoMemory),
    }
}

// The lines of these types, or why the first that has no grammar has none.
fn lines_of_types(
    alloc: Global,
    world: &World,
    types: &[TypeId],
    line: RootLine,
) -> Result<Vec<u8>, TypeFault>
    requires types { All (index.IsType (world_view world.now)) types.now }
    requires sources { IsOfSources (world_view world.now) }
    ensures lines { IfOk result (λ text. AreLinesOf (world_view world.now) types.now line text.items) }
    ensures fault { IfErr result (IsFirstTypeFault (world_view world.now) types.now) }
{
    let mut out = Buffer::behind(Vec::new(alloc));
    for of in types {
        match grammar_of_type(alloc, world, *of) {
            Ok(checked) => match add_line(line, &checked, &mut out) {
                Ok(()) => {}
                Err(_) => return Err(TypeFault::NoMemory),
            },
            Err(fault) => return Err(fault),
        }
    }
    Ok(out.into_text())
}

/// The lines of all roots. Where one has no grammar, the line that says why was written to the output for errors.
pub fn root_lines<E: Sink>(
    alloc: Global,
    world: &World,
    line: RootLine,
    err: &mut E,
) -> Result<Vec<u8>, Status>
    requires { IsOfSources (world_view world.now) }
    ensures lines { IfOk result (λ text. spec.TellsRoots (world_view world.now) line text.items) }
    ensures silent { OnOk result (IsSilent (E.taken err.old, E.faults err.old) (E.taken err.new, E.faults err.new)) }
    ensures fails { IfErr result (spec.EndsForWorld (world_view world.now) None (E.taken err.old, E.faults err.old) (E.taken err.new, E.faults err.new)) }
{
    let Ok(roots) = world.roots(alloc) else {
        return Err(no_memory(err));
    };
    match lines_of_types(alloc, world, &roots, line) {
        Ok(text) => Ok(text),
        Err(fault) => Err(type_refused(&fault, err)),
    }
}
