ghost use Rattle.std.specs.Prelude.{◌≡◌};
ghost use Rattle.acn_grammar.specs.Grammar.{num};
ghost use Rattle.acn_grammar.specs.ItemsNamed as named;
ghost use Rattle.acn_grammar.specs.View.{grammar_of, form_of, field_of, fields_view, alternatives_view};

use crate::tree::Tree;
use acn_grammar::{Alternative, Body, Field, Node, NumLeaf};

/// How many items a number of 32 bits can tell apart.
const ITEMS: u64 = 1 << 32;

fn leaf_named(leaf: &NumLeaf) -> bool
    ensures { result ≡ named.form_items_named (num leaf.now) }
{
    (leaf.items.items.items().len() as u64) < ITEMS
}

#[cycle(named)]
fn node_named(node: &Node) -> bool
    ensures { result ≡ named.items_named (grammar_of node.now) }
{
    body_named(&node.body)
}

#[cycle(named)]
fn body_named(body: &Body) -> bool
    ensures { result ≡ named.form_items_named (form_of body.now) }
{
    match body {
        Body::Num(leaf) => leaf_named(leaf),
        Body::Seq(seq) => fields_named(seq.fields.items()),
        Body::List(_, element) => node_named(element.get()),
        Body::Choice(choice) => alternatives_named(choice.alternatives.items()),
        Body::Contained(_, content) => node_named(content.get()),
        Body::Octets(_) | Body::Bits(_) | Body::Text(_) => true,
    }
}

#[cycle(named)]
fn field_named(field: &Field) -> bool
    ensures { result ≡ named.field_items_named (field_of field.now) }
{
    match field {
        Field::Component { node, .. } => node_named(node),
        Field::Inserted { node, .. } => node_named(node),
    }
}

#[cycle(named)]
fn fields_named(fields: &[Field]) -> bool
    ensures { result ≡ named.fields_items_named (fields_view fields.now) }
{
    for field in fields {
        if !field_named(field) {
            return false;
        }
    }
    true
}

#[cycle(named)]
fn alternatives_named(alternatives: &[Alternative]) -> bool
    ensures { result ≡ named.alternatives_items_named (alternatives_view alternatives.now) }
{
    for alternative in alternatives {
        if !node_named(&alternative.node) {
            return false;
        }
    }
    true
}

/// Whether numbers of 32 bits name the items of every enumeration of the tree: none has 2^32 items. It takes no memory.
pub fn items_named(tree: &Tree) -> bool
    ensures { result ≡ named.items_named (grammar_of tree.now.root) }
{
    node_named(tree.root())
}
