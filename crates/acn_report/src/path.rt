//! Paths in words.

ghost use Rattle.std.specs.Prelude.{◌≡◌, ◌||◌, false};
ghost use Rattle.acn_grammar.specs.View.{grammar_of};
ghost use Rattle.acn_print.specs.Printing.{Prints};
ghost use Rattle.acn_report.specs.Names.{element_words, front_text, has_name, name_words, names_from, names_text, path_text, place_text, step_is, step_text, steps_text, text_of};

use crate::step::{Elements, Step, is_named, step_of};
use acn_num::Path;
use acn_outside::{Failed, Sink};
use acn_print::{Piece, put_all, put_piece};
use acn_tree::{Node, Tree};

fn put_element<O: Sink>(out: &mut O, elements: Elements, number: u32) -> Result<(), Failed>
    ensures { Prints (element_words elements number) (O.taken out.old, O.faults out.old) (O.taken out.new, O.faults out.new) result }
{
    match elements {
        Elements::Numbered => put_all(
            out,
            &[
                Piece::Text("["),
                Piece::Count(u64::from(number)),
                Piece::Text("]"),
            ],
        ),
        Elements::Bare => put_piece(out, &Piece::Text("[]")),
    }
}

fn put_step<O: Sink>(out: &mut O, elements: Elements, step: &Step<'_>) -> Result<(), Failed>
    ensures { Prints (step_text elements (step_is step.now)) (O.taken out.old, O.faults out.old) (O.taken out.new, O.faults out.new) result }
{
    match step {
        Step::Named(name) => put_all(out, &[Piece::Text("."), Piece::Name(name.bytes())]),
        Step::Element(number) => put_element(out, elements, *number),
        Step::Content => put_piece(out, &Piece::Text("()")),
    }
}

// The steps from a node on, as far as they lead to nodes.
fn put_steps<O: Sink>(
    out: &mut O,
    elements: Elements,
    root: &Node,
    steps: &[u32],
) -> Result<(), Failed>
    ensures { Prints (steps_text elements (grammar_of root.now) steps.now) (O.taken out.old, O.faults out.old) (O.taken out.new, O.faults out.new) result }
{
    let mut at = root;
    for step in steps {
        match step_of(at, *step) {
            Some((words, inside)) => {
                put_step(out, elements, &words)?;
                at = inside;
            }
            None => return Ok(()),
        }
    }
    Ok(())
}

fn put_text<O: Sink>(
    tree: &Tree,
    elements: Elements,
    path: &Path,
    out: &mut O,
) -> Result<(), Failed>
    ensures { Prints (text_of elements tree.now path.now) (O.taken out.old, O.faults out.old) (O.taken out.new, O.faults out.new) result }
{
    put_piece(out, &Piece::Name(tree.name().bytes()))?;
    put_steps(out, elements, tree.root(), path.steps())
}

/// Prints a path: the name of the type, then `.name` for a field or an alternative, `[k]` for an element and `()` for a content. The
/// step into a list shows its number, which is 0 in a path of the grammar. Where the path leaves the tree, the text ends. It takes no
/// memory.
pub fn put_path<O: Sink>(tree: &Tree, path: &Path, out: &mut O) -> Result<(), Failed>
    ensures { Prints (path_text tree.now path.now) (O.taken out.old, O.faults out.old) (O.taken out.new, O.faults out.new) result }
{
    put_text(tree, Elements::Numbered, path, out)
}

/// Prints the place of a node in its tree: its path, with `[]` for the elements of a list. It takes no memory.
pub fn put_place<O: Sink>(tree: &Tree, path: &Path, out: &mut O) -> Result<(), Failed>
    ensures { Prints (place_text tree.now path.now) (O.taken out.old, O.faults out.old) (O.taken out.new, O.faults out.new) result }
{
    put_text(tree, Elements::Bare, path, out)
}

// What stands in front of a name.
fn front(begun: bool) -> &'static str
    ensures { result.now ≡ front_text begun }
{
    if begun { "." } else { "" }
}

// Whether a name stands in front of what follows a step.
fn has_begun(begun: bool, step: &Step<'_>) -> bool
    ensures { result ≡ begun || has_name (step_is step.now) }
{
    begun || is_named(step)
}

fn put_name<O: Sink>(out: &mut O, begun: bool, step: &Step<'_>) -> Result<(), Failed>
    ensures { Prints (name_words begun (step_is step.now)) (O.taken out.old, O.faults out.old) (O.taken out.new, O.faults out.new) result }
{
    match step {
        Step::Named(name) => put_all(out, &[Piece::Text(front(begun)), Piece::Name(name.bytes())]),
        Step::Element(_) => Ok(()),
        Step::Content => Ok(()),
    }
}

// The names of the steps from a node on, joined by full stops.
fn put_steps_names<O: Sink>(out: &mut O, root: &Node, steps: &[u32]) -> Result<(), Failed>
    ensures { Prints (names_from false (grammar_of root.now) steps.now) (O.taken out.old, O.faults out.old) (O.taken out.new, O.faults out.new) result }
{
    let mut at = root;
    let mut begun = false;
    for step in steps {
        match step_of(at, *step) {
            Some((words, inside)) => {
                put_name(out, begun, &words)?;
                begun = has_begun(begun, &words);
                at = inside;
            }
            None => return Ok(()),
        }
    }
    Ok(())
}

/// Prints the names of a path alone, joined by full stops, without the type's. It takes no memory.
pub fn put_names<O: Sink>(tree: &Tree, path: &Path, out: &mut O) -> Result<(), Failed>
    ensures { Prints (names_text tree.now path.now) (O.taken out.old, O.faults out.old) (O.taken out.new, O.faults out.new) result }
{
    put_steps_names(out, tree.root(), path.steps())
}
