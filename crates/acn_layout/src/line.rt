//! The line of a node.

ghost use Rattle.std.specs.Prelude.{◌≡◌};
ghost use Rattle.acn_grammar.specs.View.{grammar_of, form_of};
ghost use Rattle.acn_layout.specs.Codings.{kind_text};
ghost use Rattle.acn_layout.specs.Layout as layout;
ghost use Rattle.acn_layout.specs.Walks.{bounds_there, tag_seen};
ghost use Rattle.acn_print.specs.Printing.{Prints};

use crate::coding::kind_of;
use crate::sizes::put_form;
use crate::tag::{Tag, put_align, put_tag};
use acn_bounds::bounds_at;
use acn_check::Checked;
use acn_num::Path;
use acn_outside::{Failed, Sink};
use acn_print::{Piece, put_piece};
use acn_report::{Part, put_parts};
use acn_tree::{Body, Bounds, Node, Tree};

// The bounds of the node at a path.
fn bounds_of(checked: &Checked, path: &Path) -> Bounds
    ensures { result ≡ bounds_there (grammar_of checked.now.tree.root) path.now }
{
    match bounds_at(checked, path) {
        Some(bounds) => bounds,
        None => Bounds {
            least: 0,
            greatest: 0,
        },
    }
}

// The place, the kind and the bounds of a node.
fn put_head<'a, O: Sink>(
    out: &mut O,
    tree: &'a Tree,
    path: &'a Path,
    body: &'a Body,
    bounds: Bounds,
) -> Result<(), Failed>
    ensures { Prints (layout.head_text tree.now path.now (kind_text (form_of body.now)) bounds) (O.taken out.old, O.faults out.old) (O.taken out.new, O.faults out.new) result }
{
    let kind = kind_of(body);
    put_parts(
        out,
        &[
            Part::Place(tree, path),
            Part::Text(" "),
            Part::Text(kind),
            Part::Text(" "),
            Part::Count(bounds.least),
            Part::Text(" "),
            Part::Count(bounds.greatest),
            Part::Text(" "),
        ],
    )
}

// The line of a node with these bounds.
fn put_all_of<'a, O: Sink>(
    out: &mut O,
    tree: &'a Tree,
    path: &'a Path,
    tag: &Tag<'a>,
    bounds: Bounds,
    node: &'a Node,
) -> Result<(), Failed>
    ensures { Prints (layout.node_line tree.now path.now (tag_seen tag.now) bounds node.now.align (form_of node.now.body)) (O.taken out.old, O.faults out.old) (O.taken out.new, O.faults out.new) result }
{
    put_head(out, tree, path, &node.body, bounds)?;
    put_form(out, tree, &node.body)?;
    put_align(out, node.align)?;
    put_tag(out, tree, tag)?;
    put_piece(out, &Piece::Text("\n"))
}

/// Prints the line of the node at a path.
pub fn put_line<'a, O: Sink>(
    out: &mut O,
    checked: &'a Checked,
    path: &'a Path,
    tag: &Tag<'a>,
    node: &'a Node,
) -> Result<(), Failed>
    ensures { Prints (layout.node_line checked.now.tree path.now (tag_seen tag.now) (bounds_there (grammar_of checked.now.tree.root) path.now) node.now.align (form_of node.now.body)) (O.taken out.old, O.faults out.old) (O.taken out.new, O.faults out.new) result }
{
    let bounds = bounds_of(checked, path);
    put_all_of(out, checked.tree(), path, tag, bounds, node)
}
