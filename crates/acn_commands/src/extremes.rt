//! The shortest and the longest packet of a type.

ghost use Rattle.std.specs.Prelude.{◌≡◌, ◌∷◌, [], List, ℕ, Some, IfOk, codes};
ghost use Rattle.std.specs.Fmt.{decimal};
ghost use Rattle.std.specs.List.{concat};
ghost use Rattle.acn_grammar.specs.View.{data_of, grammar_of};
ghost use Rattle.acn_json.specs.Lines.{line_of};
ghost use Rattle.acn_print.specs.Printing.{Prints};
ghost use Rattle.acn_commands.specs.Extremes.{extremes_text, unsingle_line};
ghost use Rattle.acn_commands.specs.Outside.{Says};
ghost use Rattle.acn_commands.specs.Steps as spec;
ghost use Rattle.acn_commands.specs.declared.status.Status.TheVariants as status;
ghost use Rattle.acn_tree_laws.specs.Laws.{IsOfSources};
ghost use Rattle.acn_words.specs.Requests as requests;
ghost use Rattle.acn_words.specs.View.{type_view};
ghost use Rattle.acn_world.specs.Viewed.{world_view};

use crate::grammars::named_grammar;
use crate::reports::no_memory;
use crate::status::Status;
use crate::texts::behind_text;
use acn_check::Checked;
use acn_extremes::{Ends, ExtremesFault, Why, extremes};
use acn_json::to_line;
use acn_num::{NoMemory, Path};
use acn_outside::{Failed, Sink};
use acn_print::{Piece, put_all, put_piece};
use acn_report::{Part, put_parts};
use acn_tree::Tree;
use acn_words::TypeName;
use acn_world::World;
use std::alloc::Global;

// The lines of the values of a shortest and a longest packet.
fn lines_of(alloc: Global, tree: &Tree, ends: &Ends) -> Result<(Vec<u8>, Vec<u8>), NoMemory>
    ensures least { IfOk result (λ both. both.0.items ≡ line_of (grammar_of tree.now.root) (data_of ends.now.least_value)) }
    ensures greatest { IfOk result (λ both. both.1.items ≡ line_of (grammar_of tree.now.root) (data_of ends.now.greatest_value)) }
{
    let least = to_line(alloc, tree, &ends.least_value)?;
    let greatest = to_line(alloc, tree, &ends.greatest_value)?;
    Ok((least, greatest))
}

// Prints the lines of a shortest and a longest packet.
fn put_lines<'a, O: Sink>(
    ends: &Ends,
    least: &'a [u8],
    greatest: &'a [u8],
    out: &mut O,
) -> Result<(), Failed>
    ensures { Prints (concat (codes "least " ∷ decimal ends.now.least ∷ codes " " ∷ least.now ∷ codes "\ngreatest " ∷ decimal ends.now.greatest ∷ codes " " ∷ greatest.now ∷ codes "\n" ∷ [])) (O.taken out.old, O.faults out.old) (O.taken out.new, O.faults out.new) result }
{
    put_all(
        out,
        &[
            Piece::Text("least "),
            Piece::Count(ends.least),
            Piece::Text(" "),
            Piece::Name(least),
            Piece::Text("\ngreatest "),
            Piece::Count(ends.greatest),
            Piece::Text(" "),
            Piece::Name(greatest),
            Piece::Text("\n"),
        ],
    )
}

// Prints a shortest and a longest packet, each in a line.
fn put_ends<O: Sink, E: Sink>(
    alloc: Global,
    tree: &Tree,
    ends: &Ends,
    out: &mut O,
    err: &mut E,
) -> Status
    ensures { spec.TextEnds (λ text. text ≡ extremes_text (grammar_of tree.now.root) (Some ends.now)) (O.taken out.old, O.faults out.old) (O.taken out.new, O.faults out.new) (E.taken err.old, E.faults err.old) (E.taken err.new, E.faults err.new) result }
{
    match lines_of(alloc, tree, ends) {
        Ok((least, greatest)) => behind_text(put_lines(ends, &least, &greatest, out), err),
        Err(_) => no_memory(err),
    }
}

// Something keeps the packets of a type from being put together part by part.
fn unsingle<'a, E: Sink>(tree: &'a Tree, at: &'a Path, why: Why, err: &mut E) -> Status
    ensures status { result ≡ status.NoGrammar }
    ensures says { Says (unsingle_line tree.now at.now why) (E.taken err.old, E.faults err.old) (E.taken err.new, E.faults err.new) }
{
    let _ = put_parts(
        err,
        &[
            Part::Text("acn: "),
            Part::Path(tree, at),
            Part::Text(": NotSingle "),
            Part::Count(u64::from(why.rank())),
            Part::Text("\n"),
        ],
    );
    Status::NoGrammar
}

// Prints a shortest and a longest packet, or that no value has one.
fn ends_of<O: Sink, E: Sink>(alloc: Global, checked: &Checked, out: &mut O, err: &mut E) -> Status
    ensures { spec.ExtremesEnd checked.now.tree (O.taken out.old, O.faults out.old) (O.taken out.new, O.faults out.new) (E.taken err.old, E.faults err.old) (E.taken err.new, E.faults err.new) result }
{
    match extremes(alloc, checked) {
        Ok(Some(ends)) => put_ends(alloc, checked.tree(), &ends, out, err),
        Ok(None) => behind_text(put_piece(out, &Piece::Text("none\n")), err),
        Err(ExtremesFault::NotSingle { at, why }) => unsingle(checked.tree(), &at, why, err),
        Err(ExtremesFault::NoMemory) => no_memory(err),
    }
}

/// Prints the shortest and the longest packet of a type.
pub fn type_extremes<O: Sink, E: Sink>(
    alloc: Global,
    world: &World,
    of: &TypeName<'_>,
    out: &mut O,
    err: &mut E,
) -> Status
    requires { IsOfSources (world_view world.now) }
    ensures { (names : List (List ℕ)) → spec.AnswersText (requests.extremes (type_view of.now) names) (world_view world.now) (O.taken out.old, O.faults out.old) (O.taken out.new, O.faults out.new) (E.taken err.old, E.faults err.old) (E.taken err.new, E.faults err.new) result }
{
    match named_grammar(alloc, world, of, err) {
        Ok(checked) => ends_of(alloc, &checked, out, err),
        Err(status) => status,
    }
}
