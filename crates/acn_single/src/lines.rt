//! The nodes of a tree in preorder, with what they show.

ghost use Rattle.std.specs.Prelude.{◌≡◌, ◌<◌, ◌≤◌, ◌++◌, [], ◌∷◌, ℕ, suc, length, map, OnOk, IfOk};
ghost use Rattle.acn_num.specs.Bits.{octets as octets_for};
ghost use Rattle.acn_num.specs.declared.limits.TheConstants.{MOST_STEPS};
ghost use Rattle.acn_grammar.specs.Grammar.{Grammar};
ghost use Rattle.acn_grammar.specs.View.{grammar_of, form_of, field_of, alternative_of, fields_view, alternatives_view};
ghost use Rattle.acn_grammar.specs.Walk.{presence_tests};
ghost use Rattle.acn_grammar.specs.declared.limits.TheConstants.{MOST_NODES};
ghost use Rattle.acn_extreme_laws.specs.Facts as spec;
ghost use Rattle.acn_extreme_laws.specs.Facts.{facts, form_facts, field_facts, case_facts, form_bars};
ghost use Rattle.acn_extreme_laws.specs.declared.why.Why.TheVariants.{CountNotPermitted, TerminatorAlone};
ghost use Rattle.acn_single.specs.Lines.{CanList, FormCanList, FieldCanList, FieldsCanList, AlternativesCanList, line_of, seen, tag_of, one_field, one_case};

use crate::characters::other_there;
use crate::slots::{Slots, covers, slot_covers};
use crate::uses::uses_one;
use acn_num::{NoMemory, Path};
use acn_tree::{Alternative, Body, Bounds, Field, Node, Presence, Sizing, Test, node_interval};
use std::alloc::Global;

/// What a node's place says of it: its own conditions, the slot that it says, and the same of a component alone.
#[derive(Clone, Copy, Drop)]
pub struct Tag<'t> {
    pub tests: &'t [Test],
    pub slot: Option<u32>,
    pub own: Option<u32>,
}

/// A node in preorder, and what it shows: whether it uses a slot that is open at the nearest list round it, whether some count of octets
/// between the bounds of its content isn't permitted, and whether its alphabet is its terminator's first octet alone.
#[derive(Drop)]
pub struct Line<'t> {
    pub path: Path,
    pub tag: Tag<'t>,
    pub body: &'t Body,
    pub through: bool,
    pub uncounted: bool,
    pub alone: bool,
}

/// Where a node stands: its path, the slots that are open there, and those that are open at the nearest list round it.
#[derive(Clone, Copy, Drop)]
pub struct Place<'p> {
    pub path: &'p Path,
    pub around: &'p [u32],
    pub barred: &'p [u32],
}

// The path with one step more.
fn inner(path: &Path, step: u32) -> Path
    requires { length path.now < MOST_STEPS }
    ensures { result ≡ path.now ++ step ∷ [] }
{
    let mut longer = path.copy();
    longer.push(step);
    longer
}

fn conditions(presence: &Presence) -> &[Test]
    ensures { result.now ≡ presence_tests presence.now }
{
    match presence {
        Presence::When(tests) => tests.items(),
        Presence::Always => &[],
        Presence::Bit => &[],
    }
}

// The least count of octets that holds so many bits.
fn octets(n: u64) -> u64
    ensures { result ≡ octets_for n }
{
    if n % 8 == 0 { n / 8 } else { n / 8 + 1 }
}

// Whether each count of octets between the bounds of the content is permitted.
fn counts_covered(slots: &Slots<'_>, sizing: &Sizing, content: Bounds) -> bool
    ensures { result ≡ spec.counts_covered (grammar_of slots.now.root.now) sizing.now (octets_for content.least) (octets_for content.greatest) }
{
    let low = octets(content.least);
    let high = octets(content.greatest);
    high < low || (covers(&sizing.sizes, low, high) && slot_covers(slots, &sizing.rule, low, high))
}

// Whether some count of octets between the bounds of a content isn't permitted.
fn is_uncounted(slots: &Slots<'_>, body: &Body) -> bool
    requires { (k : ℕ) × FormCanList k (form_of body.now) }
    ensures { result ≡ form_bars (grammar_of slots.now.root.now) CountNotPermitted (form_of body.now) }
{
    match body {
        Body::Contained(sizing, content) => {
            !counts_covered(slots, sizing, node_interval(content.get()))
        }
        Body::Num(_) => false,
        Body::Octets(_) => false,
        Body::Bits(_) => false,
        Body::Text(_) => false,
        Body::Seq(_) => false,
        Body::List(_, _) => false,
        Body::Choice(_) => false,
    }
}

// Whether the alphabet of a text is its terminator's first octet alone.
fn is_alone(body: &Body) -> bool
    requires { (k : ℕ) × FormCanList k (form_of body.now) }
    ensures { (root : Grammar) → result ≡ form_bars root TerminatorAlone (form_of body.now) }
{
    match body {
        Body::Text(leaf) => !other_there(&leaf.ended, &leaf.alphabet),
        Body::Num(_) => false,
        Body::Octets(_) => false,
        Body::Bits(_) => false,
        Body::Seq(_) => false,
        Body::List(_, _) => false,
        Body::Choice(_) => false,
        Body::Contained(_, _) => false,
    }
}

fn push_line<'t>(lines: &mut Vec<Line<'t>>, line: Line<'t>) -> Result<(), NoMemory>
    ensures { OnOk result (lines.new.items ≡ lines.old.items ++ line.entry ∷ []) }
{
    lines.push(line)?;
    Ok(())
}

pub fn plain<'t>() -> Tag<'t>
    ensures { tag_of result ≡ spec.plain }
{
    Tag {
        tests: &[],
        slot: None,
        own: None,
    }
}

// Adds one node.
fn list_here<'t>(
    body: &'t Body,
    place: Place<'_>,
    tag: Tag<'t>,
    slots: &Slots<'_>,
    lines: &mut Vec<Line<'t>>,
) -> Result<(), NoMemory>
    requires { (k : ℕ) × FormCanList k (form_of body.now) }
    ensures { OnOk result (map line_of lines.new.items ≡ map line_of lines.old.items ++ seen (grammar_of slots.now.root.now) (record { path = place.entry.path.now; tag = tag_of tag.entry; form = form_of body.now; barred = place.entry.barred.now }) ∷ []) }
{
    let line = Line {
        path: place.path.copy(),
        tag,
        body,
        through: uses_one(place.barred, tag.tests, body),
        uncounted: is_uncounted(slots, body),
        alone: is_alone(body),
    };
    push_line(lines, line)
}

/// Adds the node and the nodes inside it, in preorder.
#[cycle(lines)]
pub fn list_node<'t>(
    alloc: Global,
    node: &'t Node,
    place: Place<'_>,
    tag: Tag<'t>,
    slots: &Slots<'_>,
    lines: &mut Vec<Line<'t>>,
) -> Result<(), NoMemory>
    requires { CanList (length place.path.now) (grammar_of node.now) }
    ensures { OnOk result (map line_of lines.new.items ≡ map line_of lines.old.items ++ map (seen (grammar_of slots.now.root.now)) (facts (tag_of tag.entry) place.entry.path.now place.entry.around.now place.entry.barred.now (grammar_of node.now))) }
{
    list_here(&node.body, place, tag, slots, lines)?;
    list_body(alloc, &node.body, place, slots, lines)
}

#[cycle(lines)]
fn list_body<'t>(
    alloc: Global,
    body: &'t Body,
    place: Place<'_>,
    slots: &Slots<'_>,
    lines: &mut Vec<Line<'t>>,
) -> Result<(), NoMemory>
    requires { FormCanList (length place.path.now) (form_of body.now) }
    ensures { OnOk result (map line_of lines.new.items ≡ map line_of lines.old.items ++ map (seen (grammar_of slots.now.root.now)) (form_facts place.entry.path.now place.entry.around.now place.entry.barred.now (form_of body.now))) }
{
    match body {
        Body::Seq(seq) => list_sequence(
            alloc,
            seq.fields.items(),
            seq.home.items(),
            place,
            slots,
            lines,
        ),
        Body::List(_, element) => list_element(alloc, element.get(), place, slots, lines),
        Body::Choice(choice) => {
            list_cases(alloc, choice.alternatives.items(), place, slots, lines)
        }
        Body::Contained(_, content) => list_content(alloc, content.get(), place, slots, lines),
        Body::Num(_) => Ok(()),
        Body::Octets(_) => Ok(()),
        Body::Bits(_) => Ok(()),
        Body::Text(_) => Ok(()),
    }
}

// Adds the element of a list: the slots that are open at the list are barred inside it.
#[cycle(lines)]
fn list_element<'t>(
    alloc: Global,
    element: &'t Node,
    place: Place<'_>,
    slots: &Slots<'_>,
    lines: &mut Vec<Line<'t>>,
) -> Result<(), NoMemory>
    requires { CanList (suc (length place.path.now)) (grammar_of element.now) }
    ensures { OnOk result (map line_of lines.new.items ≡ map line_of lines.old.items ++ map (seen (grammar_of slots.now.root.now)) (facts spec.plain (place.entry.path.now ++ 0 ∷ []) place.entry.around.now place.entry.around.now (grammar_of element.now))) }
{
    let path = inner(place.path, 0);
    let inside = Place {
        path: &path,
        around: place.around,
        barred: place.around,
    };
    list_node(alloc, element, inside, plain(), slots, lines)
}

// Adds the content of octets.
#[cycle(lines)]
fn list_content<'t>(
    alloc: Global,
    content: &'t Node,
    place: Place<'_>,
    slots: &Slots<'_>,
    lines: &mut Vec<Line<'t>>,
) -> Result<(), NoMemory>
    requires { CanList (suc (length place.path.now)) (grammar_of content.now) }
    ensures { OnOk result (map line_of lines.new.items ≡ map line_of lines.old.items ++ map (seen (grammar_of slots.now.root.now)) (facts spec.plain (place.entry.path.now ++ 0 ∷ []) place.entry.around.now place.entry.barred.now (grammar_of content.now))) }
{
    let path = inner(place.path, 0);
    let inside = Place {
        path: &path,
        around: place.around,
        barred: place.barred,
    };
    list_node(alloc, content, inside, plain(), slots, lines)
}

// These slots, and those round them.
fn opened(alloc: Global, home: &[u32], around: &[u32]) -> Result<Vec<u32>, NoMemory>
    ensures { IfOk result (λ open'. open'.items ≡ home.now ++ around.now) }
{
    let mut all = Vec::from_slice(alloc, home)?;
    all.extend_from_slice(around)?;
    Ok(all)
}

#[cycle(lines)]
fn list_sequence<'t>(
    alloc: Global,
    fields: &'t [Field],
    home: &[u32],
    place: Place<'_>,
    slots: &Slots<'_>,
    lines: &mut Vec<Line<'t>>,
) -> Result<(), NoMemory>
    requires few { length fields.now ≤ MOST_NODES }
    requires can { FieldsCanList (suc (length place.path.now)) (fields_view fields.now) }
    ensures { OnOk result (map line_of lines.new.items ≡ map line_of lines.old.items ++ map (seen (grammar_of slots.now.root.now)) (field_facts place.entry.path.now (home.now ++ place.entry.around.now) place.entry.barred.now 0 (fields_view fields.now))) }
{
    let around = opened(alloc, home, place.around)?;
    let inside = Place {
        path: place.path,
        around: around.as_slice(),
        barred: place.barred,
    };
    list_fields(alloc, fields, inside, slots, lines)
}

#[cycle(lines)]
fn list_fields<'t>(
    alloc: Global,
    fields: &'t [Field],
    place: Place<'_>,
    slots: &Slots<'_>,
    lines: &mut Vec<Line<'t>>,
) -> Result<(), NoMemory>
    requires few { length fields.now ≤ MOST_NODES }
    requires can { FieldsCanList (suc (length place.path.now)) (fields_view fields.now) }
    ensures { OnOk result (map line_of lines.new.items ≡ map line_of lines.old.items ++ map (seen (grammar_of slots.now.root.now)) (field_facts place.entry.path.now place.entry.around.now place.entry.barred.now 0 (fields_view fields.now))) }
{
    let mut step = 0;
    for field in fields {
        list_field(alloc, field, place, step, slots, lines)?;
        step += 1;
    }
    Ok(())
}

#[cycle(lines)]
fn list_field<'t>(
    alloc: Global,
    field: &'t Field,
    place: Place<'_>,
    step: u32,
    slots: &Slots<'_>,
    lines: &mut Vec<Line<'t>>,
) -> Result<(), NoMemory>
    requires { FieldCanList (suc (length place.path.now)) (field_of field.now) }
    ensures { OnOk result (map line_of lines.new.items ≡ map line_of lines.old.items ++ map (seen (grammar_of slots.now.root.now)) (one_field place.entry.path.now place.entry.around.now place.entry.barred.now step (field_of field.now))) }
{
    let path = inner(place.path, step);
    let inside = Place {
        path: &path,
        around: place.around,
        barred: place.barred,
    };
    match field {
        Field::Component {
            node,
            presence,
            slot,
            ..
        } => {
            let tag = Tag {
                tests: conditions(presence),
                slot: *slot,
                own: *slot,
            };
            list_node(alloc, node, inside, tag, slots, lines)
        }
        Field::Inserted { node, slot, .. } => {
            let tag = Tag {
                tests: &[],
                slot: *slot,
                own: None,
            };
            list_node(alloc, node, inside, tag, slots, lines)
        }
    }
}

#[cycle(lines)]
fn list_cases<'t>(
    alloc: Global,
    alternatives: &'t [Alternative],
    place: Place<'_>,
    slots: &Slots<'_>,
    lines: &mut Vec<Line<'t>>,
) -> Result<(), NoMemory>
    requires few { length alternatives.now ≤ MOST_NODES }
    requires can { AlternativesCanList (suc (length place.path.now)) (alternatives_view alternatives.now) }
    ensures { OnOk result (map line_of lines.new.items ≡ map line_of lines.old.items ++ map (seen (grammar_of slots.now.root.now)) (case_facts place.entry.path.now place.entry.around.now place.entry.barred.now 0 (alternatives_view alternatives.now))) }
{
    let mut step = 0;
    for alternative in alternatives {
        list_case(alloc, alternative, place, step, slots, lines)?;
        step += 1;
    }
    Ok(())
}

#[cycle(lines)]
fn list_case<'t>(
    alloc: Global,
    alternative: &'t Alternative,
    place: Place<'_>,
    step: u32,
    slots: &Slots<'_>,
    lines: &mut Vec<Line<'t>>,
) -> Result<(), NoMemory>
    requires { CanList (suc (length place.path.now)) (alternative_of alternative.now).grammar }
    ensures { OnOk result (map line_of lines.new.items ≡ map line_of lines.old.items ++ map (seen (grammar_of slots.now.root.now)) (one_case place.entry.path.now place.entry.around.now place.entry.barred.now step (alternative_of alternative.now))) }
{
    let path = inner(place.path, step);
    let inside = Place {
        path: &path,
        around: place.around,
        barred: place.barred,
    };
    list_node(alloc, &alternative.node, inside, plain(), slots, lines)
}
