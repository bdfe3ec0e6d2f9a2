//! The fields of slots, and the names of alternatives.

ghost use Rattle.std.specs.Prelude.{◌≡◌, ◌<◌, ◌++◌, ℕ, List, [], ◌∷◌, length, option_map};
ghost use Rattle.acn_grammar.specs.Grammar.{Grammar};
ghost use Rattle.acn_grammar.specs.Paths.{grammar_in, node_at as node_of_path};
ghost use Rattle.acn_grammar.specs.Tree.{is_slot as says_slot};
ghost use Rattle.acn_grammar.specs.View.{grammar_of, form_of, field_of, fields_view, alternatives_view};
ghost use Rattle.acn_num.specs.declared.limits.TheConstants.{MOST_STEPS};
ghost use Rattle.acn_report.specs.Names as names;
ghost use Rattle.acn_report.specs.Slots as slots;
ghost use Rattle.acn_report.specs.Walks.{Walkable, FormWalkable, FieldsWalkable, AlternativesWalkable, own_or, path_in, form_path, fields_path, alternatives_path, own_slot, one_path};

use crate::step::alternative;
use acn_num::{Name, Path};
use acn_tree::{Alternative, Body, Field, Node, Tree, node_at};

/// The path with one step more.
pub fn with_step(path: &Path, step: u32) -> Path
    requires { length path.now < MOST_STEPS }
    ensures { result ≡ path.now ++ step ∷ [] }
{
    let mut longer = path.copy();
    longer.push(step);
    longer
}

// Whether a field with this slot says the number of another.
fn says(own: Option<u32>, slot: u32) -> bool
    ensures { result ≡ says_slot slot own }
{
    match own {
        Some(number) => number == slot,
        None => false,
    }
}

// The first field inside the node at a path that says the number of the slot.
#[cycle(slot)]
fn in_node(node: &Node, slot: u32, path: &Path) -> Option<Path>
    requires { Walkable path.now (grammar_of node.now) }
    ensures { result ≡ path_in path.now (grammar_of node.now) slot }
{
    in_body(&node.body, slot, path)
}

#[cycle(slot)]
fn in_body(body: &Body, slot: u32, path: &Path) -> Option<Path>
    requires { FormWalkable path.now (form_of body.now) }
    ensures { result ≡ form_path path.now (form_of body.now) slot }
{
    match body {
        Body::Seq(seq) => in_fields(seq.fields.items(), slot, path),
        Body::List(_, element) => in_child(element.get(), slot, 0, path),
        Body::Choice(choice) => in_alternatives(choice.alternatives.items(), slot, path),
        Body::Contained(_, content) => in_child(content.get(), slot, 0, path),
        Body::Num(_) => None,
        Body::Octets(_) => None,
        Body::Bits(_) => None,
        Body::Text(_) => None,
    }
}

// The same inside the child of a number.
#[cycle(slot)]
fn in_child(node: &Node, slot: u32, step: u32, path: &Path) -> Option<Path>
    requires { Walkable (path.now ++ step ∷ []) (grammar_of node.now) }
    ensures { result ≡ path_in (path.now ++ step ∷ []) (grammar_of node.now) slot }
{
    let place = with_step(path, step);
    in_node(node, slot, &place)
}

// The field at a path, if it says the number of the slot, or else the first inside it.
#[cycle(slot)]
fn at_or_in(node: &Node, own: Option<u32>, slot: u32, path: Path) -> Option<Path>
    requires { Walkable path (grammar_of node.now) }
    ensures { result ≡ own_or own slot path (path_in path (grammar_of node.now) slot) }
{
    if says(own, slot) {
        return Some(path);
    }
    in_node(node, slot, &path)
}

#[cycle(slot)]
fn in_field(field: &Field, slot: u32, step: u32, path: &Path) -> Option<Path>
    requires { Walkable (path.now ++ step ∷ []) (grammar_in (field_of field.now)) }
    ensures { result ≡ one_path path.now step (field_of field.now) slot }
{
    let place = with_step(path, step);
    match field {
        Field::Component {
            node,
            slot: own,
            ..
        } => at_or_in(node, *own, slot, place),
        Field::Inserted {
            node,
            slot: own,
            ..
        } => at_or_in(node, *own, slot, place),
    }
}

#[cycle(slot)]
fn in_fields(fields: &[Field], slot: u32, path: &Path) -> Option<Path>
    requires { FieldsWalkable path.now 0 (fields_view fields.now) }
    ensures { result ≡ fields_path path.now 0 (fields_view fields.now) slot }
{
    let mut step = 0;
    for field in fields {
        match in_field(field, slot, step, path) {
            Some(found) => return Some(found),
            None => step += 1,
        }
    }
    None
}

#[cycle(slot)]
fn in_alternatives(alternatives: &[Alternative], slot: u32, path: &Path) -> Option<Path>
    requires { AlternativesWalkable path.now 0 (alternatives_view alternatives.now) }
    ensures { result ≡ alternatives_path path.now 0 (alternatives_view alternatives.now) slot }
{
    let mut step = 0;
    for alternative in alternatives {
        match in_child(&alternative.node, slot, step, path) {
            Some(found) => return Some(found),
            None => step += 1,
        }
    }
    None
}

/// The path of the field whose number a slot is, the first in preorder. None comes exactly where no field says it.
pub fn slot_path(tree: &Tree, slot: u32) -> Option<Path>
    ensures { result ≡ slots.slot_path (grammar_of tree.now.root) slot }
{
    in_node(tree.root(), slot, &Path::new())
}

fn name_of<'t>(child: Option<(&'t Name, &'t Node)>) -> Option<&'t Name>
    ensures { option_map (λ name. name.now) result ≡ option_map (λ (c : List ℕ × Grammar). c.0) (option_map (λ c. (c.0.now, grammar_of c.1.now)) child.entry) }
{
    match child {
        Some((name, _)) => Some(name),
        None => None,
    }
}

// The name of an alternative of a node, None where it isn't that of a CHOICE.
fn alternative_name(node: &Node, number: u32) -> Option<&Name>
    ensures { option_map (λ name. name.now) result ≡ names.alternative_name (grammar_of node.now) number }
{
    match &node.body {
        Body::Choice(choice) => name_of(alternative(choice.alternatives.items(), number)),
        _ => None,
    }
}

/// The name of the alternative of a number of the CHOICE at a path. None comes exactly where there is no such alternative.
pub fn alternative_at<'t>(tree: &'t Tree, path: &Path, number: u32) -> Option<&'t Name>
    ensures { option_map (λ name. name.now) result ≡ names.name_there (node_of_path (grammar_of tree.now.root) path.now) number }
{
    match node_at(tree, path) {
        Some(node) => alternative_name(node, number),
        None => None,
    }
}
