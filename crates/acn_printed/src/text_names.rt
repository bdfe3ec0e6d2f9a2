//! Whether the names of a tree are text.

ghost use Rattle.std.specs.Prelude.{IsTrue, IsUtf8};
ghost use Rattle.acn_grammar.specs.View.{grammar_of, fields_view, alternatives_view};
ghost use Rattle.acn_json.specs.RoundTrip.{NamesAreText, HasTextNames, FieldsHaveTextNames, AlternativesHaveTextNames};

use acn_grammar::{Alternative, Body, Field, Node};
use acn_num::Name;

fn is_text(name: &[u8]) -> bool
    ensures { IsTrue result → IsUtf8 name.now }
{
    std::str::from_utf8(name).is_ok()
}

fn are_text(items: &[(Name, i128)]) -> bool
    ensures { IsTrue result → NamesAreText items.now }
{
    for item in items {
        if !is_text(item.0.bytes()) {
            return false;
        }
    }
    true
}

/// Whether the names of items, components and alternatives are UTF-8.
#[cycle(text_names)]
pub fn has_text_names(node: &Node) -> bool
    ensures { IsTrue result → HasTextNames (grammar_of node.now) }
{
    match &node.body {
        Body::Num(leaf) => are_text(leaf.items.items.items()),
        Body::Octets(_) => true,
        Body::Bits(_) => true,
        Body::Text(_) => true,
        Body::Seq(seq) => fields_have_text_names(seq.fields.items()),
        Body::List(_, element) => has_text_names(element.get()),
        Body::Choice(choice) => alternatives_have_text_names(choice.alternatives.items()),
        Body::Contained(_, content) => has_text_names(content.get()),
    }
}

#[cycle(text_names)]
fn fields_have_text_names(fields: &[Field]) -> bool
    ensures { IsTrue result → FieldsHaveTextNames (fields_view fields.now) }
{
    for field in fields {
        match field {
            Field::Component { name, node, .. } => {
                if !is_text(name.bytes()) || !has_text_names(node) {
                    return false;
                }
            }
            Field::Inserted { .. } => {}
        }
    }
    true
}

#[cycle(text_names)]
fn alternatives_have_text_names(alternatives: &[Alternative]) -> bool
    ensures { IsTrue result → AlternativesHaveTextNames (alternatives_view alternatives.now) }
{
    for alternative in alternatives {
        if !is_text(alternative.name.bytes()) || !has_text_names(&alternative.node) {
            return false;
        }
    }
    true
}
