ghost use Rattle.std.specs.Prelude.{◌≡◌, ◌<◌, ◌++◌, [], ◌∷◌, length, map, OnOk};
ghost use Rattle.acn_grammar.specs.Check.{home_size};
ghost use Rattle.acn_grammar.specs.View.{grammar_of, form_of, field_of, alternative_of, fields_view, alternatives_view};
ghost use Rattle.acn_grammar.specs.Walk.{presence_tests};
ghost use Rattle.acn_check.specs.Facts as spec;
ghost use Rattle.acn_check.specs.Facts.{facts, form_facts, field_facts, alternative_facts, one_field, one_alternative, Fit, facts_of};
ghost use Rattle.acn_num.specs.declared.limits.TheConstants.{MOST_STEPS};

use acn_num::{NoMemory, Path};
use acn_tree::{Alternative, Body, Field, Node, Presence, Test};

/// What a node's place says of it: its own conditions, whether it is a component, and its slot.
#[derive(Clone, Copy, Drop)]
pub struct Tag<'t> {
    pub tests: &'t [Test],
    pub component: bool,
    pub slot: Option<u32>,
}

/// A node in preorder, with what the faults ask of it. `at_home` counts the slots that are at home on
/// the path to the node, itself included.
#[derive(Drop)]
pub struct Line<'t> {
    pub path: Path,
    pub tag: Tag<'t>,
    pub body: &'t Body,
    pub at_home: usize,
}

// How many slots are at home in the node.
fn home_len(body: &Body) -> usize
    ensures { result ≡ home_size (form_of body.now) }
{
    match body {
        Body::Seq(seq) => seq.home.items().len(),
        _ => 0,
    }
}

// The path with one step more.
fn inner(path: &Path, step: u32) -> Path
    requires { length path.now < MOST_STEPS }
    ensures { result ≡ path.now ++ step ∷ [] }
{
    let mut longer = path.copy();
    longer.push(step);
    longer
}

fn conditions(presence: &Presence) -> &[Test]
    ensures { result.now ≡ presence_tests presence.now }
{
    match presence {
        Presence::When(tests) => tests.items(),
        Presence::Always | Presence::Bit => &[],
    }
}

fn push_line<'t>(lines: &mut Vec<Line<'t>>, line: Line<'t>) -> Result<(), NoMemory>
    ensures { OnOk result (lines.new.items ≡ lines.old.items ++ line.entry ∷ []) }
{
    lines.push(line)?;
    Ok(())
}

pub fn plain<'t>() -> Tag<'t>
    ensures { spec.tag_seen result ≡ spec.plain }
{
    Tag {
        tests: &[],
        component: false,
        slot: None,
    }
}

/// Adds the node and the nodes inside it, in preorder.
#[cycle(lines)]
pub fn list_node<'t>(
    node: &'t Node,
    lines: &mut Vec<Line<'t>>,
    tag: Tag<'t>,
    path: &Path,
    around: usize,
) -> Result<(), NoMemory>
    requires { Fit (facts (spec.tag_seen tag) path.now around (grammar_of node.now)) }
    ensures { OnOk result (map facts_of lines.new.items ≡ map facts_of lines.old.items ++ facts (spec.tag_seen tag.entry) path.now around (grammar_of node.now)) }
{
    let at_home = home_len(&node.body) + around;
    let line = Line {
        path: path.copy(),
        tag,
        body: &node.body,
        at_home,
    };
    push_line(lines, line)?;
    list_body(&node.body, lines, path, at_home)
}

#[cycle(lines)]
fn list_body<'t>(
    body: &'t Body,
    lines: &mut Vec<Line<'t>>,
    path: &Path,
    around: usize,
) -> Result<(), NoMemory>
    requires { Fit (form_facts path.now around (form_of body.now)) }
    ensures { OnOk result (map facts_of lines.new.items ≡ map facts_of lines.old.items ++ form_facts path.now around (form_of body.now)) }
{
    match body {
        Body::Seq(seq) => list_fields(seq.fields.items(), lines, path, around),
        Body::List(_, inside) => list_inside(inside.get(), lines, path, around),
        Body::Choice(choice) => {
            list_alternatives(choice.alternatives.items(), lines, path, around)
        }
        Body::Contained(_, inside) => list_inside(inside.get(), lines, path, around),
        Body::Num(_) | Body::Octets(_) | Body::Bits(_) | Body::Text(_) => Ok(()),
    }
}

// Adds the element of a list, or the content of octets.
#[cycle(lines)]
fn list_inside<'t>(
    node: &'t Node,
    lines: &mut Vec<Line<'t>>,
    path: &Path,
    around: usize,
) -> Result<(), NoMemory>
    requires { Fit (facts spec.plain (path.now ++ 0 ∷ []) around (grammar_of node.now)) }
    ensures { OnOk result (map facts_of lines.new.items ≡ map facts_of lines.old.items ++ facts spec.plain (path.now ++ 0 ∷ []) around (grammar_of node.now)) }
{
    let place = inner(path, 0);
    list_node(node, lines, plain(), &place, around)
}

#[cycle(lines)]
fn list_field<'t>(
    field: &'t Field,
    lines: &mut Vec<Line<'t>>,
    path: &Path,
    around: usize,
    step: u32,
) -> Result<(), NoMemory>
    requires { Fit (one_field path.now around step (field_of field.now)) }
    ensures { OnOk result (map facts_of lines.new.items ≡ map facts_of lines.old.items ++ one_field path.now around step (field_of field.now)) }
{
    let place = inner(path, step);
    match field {
        Field::Component {
            node,
            presence,
            slot,
            ..
        } => {
            let tag = Tag {
                tests: conditions(presence),
                component: true,
                slot: *slot,
            };
            list_node(node, lines, tag, &place, around)
        }
        Field::Inserted { node, slot, .. } => {
            let tag = Tag {
                tests: &[],
                component: false,
                slot: *slot,
            };
            list_node(node, lines, tag, &place, around)
        }
    }
}

#[cycle(lines)]
fn list_fields<'t>(
    fields: &'t [Field],
    lines: &mut Vec<Line<'t>>,
    path: &Path,
    around: usize,
) -> Result<(), NoMemory>
    requires { Fit (field_facts path.now around 0 (fields_view fields.now)) }
    ensures { OnOk result (map facts_of lines.new.items ≡ map facts_of lines.old.items ++ field_facts path.now around 0 (fields_view fields.now)) }
{
    let mut step = 0;
    for field in fields {
        list_field(field, lines, path, around, step)?;
        step += 1;
    }
    Ok(())
}

#[cycle(lines)]
fn list_alternative<'t>(
    alternative: &'t Alternative,
    lines: &mut Vec<Line<'t>>,
    path: &Path,
    around: usize,
    step: u32,
) -> Result<(), NoMemory>
    requires { Fit (one_alternative path.now around step (alternative_of alternative.now)) }
    ensures { OnOk result (map facts_of lines.new.items ≡ map facts_of lines.old.items ++ one_alternative path.now around step (alternative_of alternative.now)) }
{
    let place = inner(path, step);
    let tag = Tag {
        tests: alternative.tests.items(),
        component: false,
        slot: None,
    };
    list_node(&alternative.node, lines, tag, &place, around)
}

#[cycle(lines)]
fn list_alternatives<'t>(
    alternatives: &'t [Alternative],
    lines: &mut Vec<Line<'t>>,
    path: &Path,
    around: usize,
) -> Result<(), NoMemory>
    requires { Fit (alternative_facts path.now around 0 (alternatives_view alternatives.now)) }
    ensures { OnOk result (map facts_of lines.new.items ≡ map facts_of lines.old.items ++ alternative_facts path.now around 0 (alternatives_view alternatives.now)) }
{
    let mut step = 0;
    for alternative in alternatives {
        list_alternative(alternative, lines, path, around, step)?;
        step += 1;
    }
    Ok(())
}
