//! The sizes of a node that the field which says them doesn't permit.

ghost use Rattle.std.specs.Prelude.{◌≡◌, IfOk};
ghost use Rattle.acn_grammar.specs.View.{grammar_of};
ghost use Rattle.acn_warnings.specs.Sizes.{unsaid};

use acn_determinants::slot_leaf;
use acn_num::{NoMemory, Path, RangeSet};
use acn_outside::{Failed, Sink};
use acn_permits::put_ranges;
use acn_report::{Part, put_parts};
use acn_tree::{Body, Node, SizeRule, Sizing, Tree};
use std::alloc::Global;

/// The sizes of a node that the field which says its size doesn't permit. There are none where no
/// field says it. (This program's own.)
pub fn unsaid_sizes(alloc: Global, root: &Node, sizing: &Sizing) -> Result<RangeSet, NoMemory>
    ensures { IfOk result (λ sizes. sizes ≡ unsaid (grammar_of root.now) sizing.now.sizes sizing.now.rule) }
{
    match &sizing.rule {
        SizeRule::Slot(slot) => match slot_leaf(root, *slot) {
            Some(leaf) => sizing.sizes.except(alloc, &leaf.set),
            None => sizing.sizes.except(alloc, &RangeSet::empty(alloc)),
        },
        SizeRule::Prefix { .. } => Ok(RangeSet::empty(alloc)),
        SizeRule::Ended(_) => Ok(RangeSet::empty(alloc)),
    }
}

// Prints that a slot can't say these sizes of the node at a path.
fn put_unsaid<'a, O: Sink>(
    tree: &'a Tree,
    path: &'a Path,
    slot: u32,
    sizes: &RangeSet,
    out: &mut O,
) -> Result<(), Failed> {
    put_parts(
        out,
        &[
            Part::Text("  "),
            Part::Path(tree, path),
            Part::Text(": "),
            Part::Slot(tree, slot),
            Part::Text(" can't say the size "),
        ],
    )?;
    put_ranges(sizes, out)?;
    put_parts(out, &[Part::Text("\n")])
}

fn put_sizing<'a, O: Sink>(
    alloc: Global,
    tree: &'a Tree,
    path: &'a Path,
    sizing: &'a Sizing,
    out: &mut O,
) -> Result<(), Failed> {
    let SizeRule::Slot(slot) = &sizing.rule else {
        return Ok(());
    };
    match unsaid_sizes(alloc, tree.root(), sizing) {
        Ok(sizes) => {
            if sizes.ranges().is_empty() {
                Ok(())
            } else {
                put_unsaid(tree, path, *slot, &sizes, out)
            }
        }
        Err(NoMemory) => Ok(()),
    }
}

/// Prints a line with the sizes of the node that the field which says its size doesn't permit, if
/// there are any. Where memory runs out it is left.
pub fn put_sizes<'a, O: Sink>(
    alloc: Global,
    tree: &'a Tree,
    path: &'a Path,
    body: &'a Body,
    out: &mut O,
) -> Result<(), Failed> {
    match body {
        Body::Octets(sizing) => put_sizing(alloc, tree, path, sizing, out),
        Body::Bits(sizing) => put_sizing(alloc, tree, path, sizing, out),
        Body::Text(leaf) => put_sizing(alloc, tree, path, &leaf.sized, out),
        Body::List(sizing, _) => put_sizing(alloc, tree, path, sizing, out),
        Body::Contained(sizing, _) => put_sizing(alloc, tree, path, sizing, out),
        Body::Num(_) => Ok(()),
        Body::Seq(_) => Ok(()),
        Body::Choice(_) => Ok(()),
    }
}
