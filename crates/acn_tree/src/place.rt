ghost use Rattle.std.specs.Prelude.{◌≡◌, option_map, IfSome};
ghost use Rattle.acn_grammar.specs.Paths.{child as child_of, grammar_in, field_at as field_of_number, alternative_at as alternative_of_number, node_at as node_of_path};
ghost use Rattle.acn_tree.specs.Room.{InTree};
ghost use Rattle.acn_grammar.specs.View.{grammar_of, field_of, fields_view, alternatives_view};

use crate::tree::Tree;
use acn_grammar::{Alternative, Body, Field, Node};
use acn_num::Path;

// The node of a field.
fn field_node(field: &Field) -> &Node
    ensures { grammar_of result.now ≡ grammar_in (field_of field.now) }
{
    match field {
        Field::Component { node, .. } => node,
        Field::Inserted { node, .. } => node,
    }
}

// The node of the field of this number.
fn field_at(fields: &[Field], step: u32) -> Option<&Node>
    ensures { option_map (λ n. grammar_of n.now) result ≡ field_of_number (fields_view fields.now) step }
{
    match fields.get(step as usize) {
        Some(field) => Some(field_node(field)),
        None => None,
    }
}

// The node of the alternative of this number.
fn alternative_at(alternatives: &[Alternative], step: u32) -> Option<&Node>
    ensures { option_map (λ n. grammar_of n.now) result ≡ alternative_of_number (alternatives_view alternatives.now) step }
{
    match alternatives.get(step as usize) {
        Some(alternative) => Some(&alternative.node),
        None => None,
    }
}

// The node that one step leads to.
fn child(node: &Node, step: u32) -> Option<&Node>
    ensures { option_map (λ n. grammar_of n.now) result ≡ child_of (grammar_of node.now) step }
{
    match &node.body {
        Body::Seq(seq) => field_at(seq.fields.items(), step),
        Body::Choice(choice) => alternative_at(choice.alternatives.items(), step),
        Body::List(_, inside) | Body::Contained(_, inside) => {
            if step == 0 { Some(inside.get()) } else { None }
        }
        _ => None,
    }
}

/// The node of a path. None comes exactly where no node has that path.
pub fn node_at<'t>(tree: &'t Tree, path: &Path) -> Option<&'t Node>
    ensures node { option_map (λ n. grammar_of n.now) result ≡ node_of_path (grammar_of tree.now.root) path.now }
    ensures part { IfSome result (λ n. InTree (grammar_of n.now)) }
{
    let mut at = tree.root();
    for step in path.steps() {
        match child(at, *step) {
            Some(inside) => at = inside,
            None => return None,
        }
    }
    Some(at)
}
