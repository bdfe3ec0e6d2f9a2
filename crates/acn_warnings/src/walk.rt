//! The walk over the nodes of a tree, in preorder.

ghost use Rattle.std.specs.Prelude.{[], ◌∷◌, ◌++◌};
ghost use Rattle.acn_grammar.specs.Paths.{grammar_in};
ghost use Rattle.acn_grammar.specs.View.{grammar_of, form_of, field_of, fields_view, alternative_of, alternatives_view};
ghost use Rattle.acn_report.specs.Walks.{AlternativesWalkable, FieldsWalkable, FormWalkable, Walkable};

use crate::packets::has_no_packet;
use crate::sizes::put_sizes;
use acn_check::Checked;
use acn_num::{NoMemory, Path};
use acn_outside::{Failed, Sink};
use acn_report::{Part, put_parts, with_step};
use acn_tree::{Alternative, Body, Field, Node, Tree};
use std::alloc::Global;

// The lines of the node at a path, and of the nodes inside it.
#[cycle(sizes)]
fn put_node<'a, O: Sink>(
    node: &'a Node,
    alloc: Global,
    out: &mut O,
    tree: &'a Tree,
    path: &Path,
) -> Result<(), Failed>
    requires { Walkable path.now (grammar_of node.now) }
{
    put_sizes(alloc, tree, path, &node.body, out)?;
    put_body(&node.body, alloc, out, tree, path)
}

#[cycle(sizes)]
fn put_body<'a, O: Sink>(
    body: &'a Body,
    alloc: Global,
    out: &mut O,
    tree: &'a Tree,
    path: &Path,
) -> Result<(), Failed>
    requires { FormWalkable path.now (form_of body.now) }
{
    match body {
        Body::Seq(seq) => put_fields(seq.fields.items(), alloc, out, tree, path),
        Body::List(_, element) => put_inside(element.get(), alloc, out, tree, path),
        Body::Choice(choice) => put_cases(choice.alternatives.items(), alloc, out, tree, path),
        Body::Contained(_, content) => put_inside(content.get(), alloc, out, tree, path),
        Body::Num(_) => Ok(()),
        Body::Octets(_) => Ok(()),
        Body::Bits(_) => Ok(()),
        Body::Text(_) => Ok(()),
    }
}

// The lines of the element of a list or of the content of octets.
#[cycle(sizes)]
fn put_inside<'a, O: Sink>(
    node: &'a Node,
    alloc: Global,
    out: &mut O,
    tree: &'a Tree,
    path: &Path,
) -> Result<(), Failed>
    requires { Walkable (path.now ++ 0 ∷ []) (grammar_of node.now) }
{
    let place = with_step(path, 0);
    put_node(node, alloc, out, tree, &place)
}

#[cycle(sizes)]
fn put_field<'a, O: Sink>(
    field: &'a Field,
    alloc: Global,
    out: &mut O,
    tree: &'a Tree,
    path: &Path,
    step: u32,
) -> Result<(), Failed>
    requires { Walkable (path.now ++ step ∷ []) (grammar_in (field_of field.now)) }
{
    let place = with_step(path, step);
    match field {
        Field::Component { node, .. } => put_node(node, alloc, out, tree, &place),
        Field::Inserted { node, .. } => put_node(node, alloc, out, tree, &place),
    }
}

#[cycle(sizes)]
fn put_fields<'a, O: Sink>(
    fields: &'a [Field],
    alloc: Global,
    out: &mut O,
    tree: &'a Tree,
    path: &Path,
) -> Result<(), Failed>
    requires { FieldsWalkable path.now 0 (fields_view fields.now) }
{
    let mut step = 0;
    for field in fields {
        put_field(field, alloc, out, tree, path, step)?;
        step += 1;
    }
    Ok(())
}

#[cycle(sizes)]
fn put_case<'a, O: Sink>(
    alternative: &'a Alternative,
    alloc: Global,
    out: &mut O,
    tree: &'a Tree,
    path: &Path,
    step: u32,
) -> Result<(), Failed>
    requires { Walkable (path.now ++ step ∷ []) (alternative_of alternative.now).grammar }
{
    let place = with_step(path, step);
    put_node(&alternative.node, alloc, out, tree, &place)
}

#[cycle(sizes)]
fn put_cases<'a, O: Sink>(
    alternatives: &'a [Alternative],
    alloc: Global,
    out: &mut O,
    tree: &'a Tree,
    path: &Path,
) -> Result<(), Failed>
    requires { AlternativesWalkable path.now 0 (alternatives_view alternatives.now) }
{
    let mut step = 0;
    for alternative in alternatives {
        put_case(alternative, alloc, out, tree, path, step)?;
        step += 1;
    }
    Ok(())
}

// Prints that no value can be written, where that is so.
fn put_packet<'a, O: Sink>(
    alloc: Global,
    checked: &'a Checked,
    path: &'a Path,
    out: &mut O,
) -> Result<(), Failed> {
    match has_no_packet(alloc, checked) {
        Ok(true) => put_parts(
            out,
            &[
                Part::Text("  "),
                Part::Path(checked.tree(), path),
                Part::Text(": no value can be written\n"),
            ],
        ),
        Ok(false) => Ok(()),
        Err(NoMemory) => Ok(()),
    }
}

/// Prints the lines that warn of an accepted tree: one that says that no value can be written,
/// where that is so, and for each node in preorder one with the sizes that it permits and that the
/// field which says its size doesn't. Where memory runs out a line is left. (This program's own.)
pub fn put_warnings<O: Sink>(alloc: Global, checked: &Checked, out: &mut O) -> Result<(), Failed> {
    let path = Path::new();
    put_packet(alloc, checked, &path, out)?;
    let tree = checked.tree();
    put_node(tree.root(), alloc, out, tree, &path)
}
