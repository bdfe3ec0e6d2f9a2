//! The walk over the nodes of a tree, in preorder.

ghost use Rattle.std.specs.Prelude.{◌≡◌, ◌<◌, [], ◌∷◌, ◌++◌, length};
ghost use Rattle.acn_grammar.specs.Paths.{grammar_in};
ghost use Rattle.acn_grammar.specs.View.{grammar_of, form_of, field_of, fields_view, alternative_of, alternatives_view};
ghost use Rattle.acn_layout.specs.Layout.{layout_text};
ghost use Rattle.acn_layout.specs.Walks.{case_lines, field_lines, form_lines, node_lines, one_case, one_field, plain, tag_seen};
ghost use Rattle.acn_num.specs.declared.limits.TheConstants.{MOST_STEPS};
ghost use Rattle.acn_print.specs.Printing.{Prints};
ghost use Rattle.acn_report.specs.Walks.{AlternativesWalkable, FieldsWalkable, FormWalkable, Walkable};

use crate::line::put_line;
use crate::tag::Tag;
use acn_check::Checked;
use acn_num::Path;
use acn_outside::{Failed, Sink};
use acn_packet_laws::each_node_has_its_path;
use acn_report::with_step;
use acn_tree::{Alternative, Body, Field, Node};

// The lines of the node at a path, and of the nodes inside it.
#[cycle(layout)]
fn put_node<'a, O: Sink>(
    node: &'a Node,
    out: &mut O,
    checked: &'a Checked,
    tag: &Tag<'a>,
    path: &Path,
) -> Result<(), Failed>
    requires { Walkable path.now (grammar_of node.now) }
    ensures { Prints (node_lines checked.now.tree (tag_seen tag.now) path.now (grammar_of node.now)) (O.taken out.old, O.faults out.old) (O.taken out.new, O.faults out.new) result }
{
    put_line(out, &*checked, path, &tag.again(), &*node)?;
    put_body(&node.body, out, checked, path)
}

#[cycle(layout)]
fn put_body<'a, O: Sink>(
    body: &'a Body,
    out: &mut O,
    checked: &'a Checked,
    path: &Path,
) -> Result<(), Failed>
    requires { FormWalkable path.now (form_of body.now) }
    ensures { Prints (form_lines checked.now.tree path.now (form_of body.now)) (O.taken out.old, O.faults out.old) (O.taken out.new, O.faults out.new) result }
{
    match body {
        Body::Seq(seq) => put_fields(seq.fields.items(), out, checked, path),
        Body::List(_, element) => put_inside(element.get(), out, checked, path),
        Body::Choice(choice) => put_cases(choice.alternatives.items(), out, checked, path),
        Body::Contained(_, content) => put_inside(content.get(), out, checked, path),
        Body::Num(_) => Ok(()),
        Body::Octets(_) => Ok(()),
        Body::Bits(_) => Ok(()),
        Body::Text(_) => Ok(()),
    }
}

// The lines of the element of a list or of the content of octets.
#[cycle(layout)]
fn put_inside<'a, O: Sink>(
    node: &'a Node,
    out: &mut O,
    checked: &'a Checked,
    path: &Path,
) -> Result<(), Failed>
    requires { Walkable (path.now ++ 0 ∷ []) (grammar_of node.now) }
    ensures { Prints (node_lines checked.now.tree plain (path.now ++ 0 ∷ []) (grammar_of node.now)) (O.taken out.old, O.faults out.old) (O.taken out.new, O.faults out.new) result }
{
    let place = with_step(path, 0);
    let tag = Tag::with_tests(&[]);
    put_node(node, out, checked, &tag, &place)
}

#[cycle(layout)]
fn put_field<'a, O: Sink>(
    field: &'a Field,
    out: &mut O,
    checked: &'a Checked,
    path: &Path,
    step: u32,
) -> Result<(), Failed>
    requires { Walkable (path.now ++ step ∷ []) (grammar_in (field_of field.now)) }
    ensures { Prints (one_field checked.now.tree path.now step (field_of field.now)) (O.taken out.old, O.faults out.old) (O.taken out.new, O.faults out.new) result }
{
    let place = with_step(path, step);
    match field {
        Field::Component { node, presence, .. } => {
            let tag = Tag::component(presence);
            put_node(node, out, checked, &tag, &place)
        }
        Field::Inserted { node, .. } => {
            let tag = Tag::inserted();
            put_node(node, out, checked, &tag, &place)
        }
    }
}

#[cycle(layout)]
fn put_fields<'a, O: Sink>(
    fields: &'a [Field],
    out: &mut O,
    checked: &'a Checked,
    path: &Path,
) -> Result<(), Failed>
    requires { FieldsWalkable path.now 0 (fields_view fields.now) }
    ensures { Prints (field_lines checked.now.tree path.now 0 (fields_view fields.now)) (O.taken out.old, O.faults out.old) (O.taken out.new, O.faults out.new) result }
{
    let mut step = 0;
    for field in fields {
        put_field(field, out, checked, path, step)?;
        step += 1;
    }
    Ok(())
}

#[cycle(layout)]
fn put_case<'a, O: Sink>(
    alternative: &'a Alternative,
    out: &mut O,
    checked: &'a Checked,
    path: &Path,
    step: u32,
) -> Result<(), Failed>
    requires { Walkable (path.now ++ step ∷ []) (alternative_of alternative.now).grammar }
    ensures { Prints (one_case checked.now.tree path.now step (alternative_of alternative.now)) (O.taken out.old, O.faults out.old) (O.taken out.new, O.faults out.new) result }
{
    let place = with_step(path, step);
    let tag = Tag::with_tests(alternative.tests.items());
    put_node(&alternative.node, out, checked, &tag, &place)
}

#[cycle(layout)]
fn put_cases<'a, O: Sink>(
    alternatives: &'a [Alternative],
    out: &mut O,
    checked: &'a Checked,
    path: &Path,
) -> Result<(), Failed>
    requires { AlternativesWalkable path.now 0 (alternatives_view alternatives.now) }
    ensures { Prints (case_lines checked.now.tree path.now 0 (alternatives_view alternatives.now)) (O.taken out.old, O.faults out.old) (O.taken out.new, O.faults out.new) result }
{
    let mut step = 0;
    for alternative in alternatives {
        put_case(alternative, out, checked, path, step)?;
        step += 1;
    }
    Ok(())
}

/// Prints the layout of an accepted tree: a line for each node in preorder, `PATH KIND LEAST GREATEST CODING`, with what holds of the node
/// behind it: ` align N`, ` inserted`, ` optional`, and ` when` with its conditions. The bounds are in bits, those of the node itself, also
/// where it may be absent; a list's element has the step `[]`; a determinant is named by the names of its path alone. It takes no
/// memory. (This profile's own.)
pub fn put_layout<'a, O: Sink>(checked: &'a Checked, out: &mut O) -> Result<(), Failed>
    ensures { Prints (layout_text checked.now.tree) (O.taken out.old, O.faults out.old) (O.taken out.new, O.faults out.new) result }
{
    each_node_has_its_path();
    let tag = Tag::with_tests(&[]);
    let path = Path::new();
    put_node(checked.tree().root(), out, checked, &tag, &path)
}
