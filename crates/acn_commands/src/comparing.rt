//! An older type against a newer one.

ghost use Rattle.std.specs.Prelude.{◌≡◌, ℕ, List};
ghost use Rattle.acn_commands.specs.Compared.{IsAnswerLine};
ghost use Rattle.acn_commands.specs.Steps as spec;
ghost use Rattle.acn_tree_laws.specs.Laws.{IsOfSources};
ghost use Rattle.acn_words.specs.Requests as requests;
ghost use Rattle.acn_words.specs.View.{type_view};
ghost use Rattle.acn_world.specs.Viewed.{world_view};

use crate::grammars::named_grammars;
use crate::reports::no_memory;
use crate::status::Status;
use crate::texts::behind_text;
use acn_check::Checked;
use acn_compare::{compare, put_answer};
use acn_outside::Sink;
use acn_words::TypeName;
use acn_world::World;
use std::alloc::Global;

// The line that says whether packets of the older type are read under the newer one.
fn comparison<O: Sink, E: Sink>(
    alloc: Global,
    old: &Checked,
    newer: &Checked,
    out: &mut O,
    err: &mut E,
) -> Status
    ensures { spec.TextEnds (IsAnswerLine old.now.tree newer.now.tree) (O.taken out.old, O.faults out.old) (O.taken out.new, O.faults out.new) (E.taken err.old, E.faults err.old) (E.taken err.new, E.faults err.new) result }
{
    match compare(alloc, old, newer) {
        Ok(answer) => behind_text(put_answer(old.tree(), &answer, out), err),
        Err(_) => no_memory(err),
    }
}

/// Prints whether packets of the older type are read under the newer one.
pub fn compare_types<O: Sink, E: Sink>(
    alloc: Global,
    world: &World,
    old: &TypeName<'_>,
    newer: &TypeName<'_>,
    out: &mut O,
    err: &mut E,
) -> Status
    requires { IsOfSources (world_view world.now) }
    ensures { (names : List (List ℕ)) → spec.AnswersText (requests.compare (type_view old.now) (type_view newer.now) names) (world_view world.now) (O.taken out.old, O.faults out.old) (O.taken out.new, O.faults out.new) (E.taken err.old, E.faults err.old) (E.taken err.new, E.faults err.new) result }
{
    match named_grammars(alloc, world, &[*old, *newer], err) {
        Ok(all) => {
            let first = &all[0];
            let second = &all[1];
            comparison(alloc, first, second, out, err)
        }
        Err(status) => status,
    }
}
