ghost use Rattle.std.specs.Prelude.{◌≡◌, ◌^◌, ◌≤◌, ◌+◌, ◌*◌};
ghost use Rattle.acn_grammar.specs.Interval.{held, string_values as values_of_string, value_count as count_of, form_values, field_values, alternative_values, with_field_values};
ghost use Rattle.acn_grammar.specs.View.{grammar_of, form_of, field_of, fields_view, alternatives_view};

use crate::extent::size;
use crate::tree::Tree;
use acn_grammar::{Alternative, Body, Field, Node, Sizing};

/// Sums and products are held down to this.
const MOST: u64 = 1 << 40;

fn sum(a: u64, b: u64) -> u64
    ensures value { result ≡ held (a + b) }
    ensures small { result ≤ 2 ^ 40 }
{
    a.saturating_add(b).min(MOST)
}

fn product(a: u64, b: u64) -> u64
    ensures { result ≡ held (a * b) }
{
    a.saturating_mul(b).min(MOST)
}

fn string_values(sizing: &Sizing) -> u64
    ensures { result ≡ values_of_string sizing.now }
{
    sum(1, size(sizing.sizes.greatest()))
}

#[cycle(values)]
fn node_values(node: &Node) -> u64
    ensures { result ≡ count_of (grammar_of node.now) }
{
    body_values(&node.body)
}

#[cycle(values)]
fn body_values(body: &Body) -> u64
    ensures { result ≡ form_values (form_of body.now) }
{
    match body {
        Body::Num(_) => 1,
        Body::Octets(sizing) | Body::Bits(sizing) => string_values(sizing),
        Body::Text(leaf) => string_values(&leaf.sized),
        Body::Seq(seq) => sum(1, fields_values(seq.fields.items())),
        Body::List(sizing, element) => {
            let each = node_values(element.get());
            sum(1, product(size(sizing.sizes.greatest()), each))
        }
        Body::Choice(choice) => sum(1, alternatives_values(choice.alternatives.items())),
        Body::Contained(_, content) => sum(1, node_values(content.get())),
    }
}

// With the values of a field, which an inserted one doesn't have.
#[cycle(values)]
fn with_field(all: u64, field: &Field) -> u64
    requires { all ≤ 2 ^ 40 }
    ensures value { result ≡ with_field_values all (field_of field.now) }
    ensures small { result ≤ 2 ^ 40 }
{
    match field {
        Field::Component { node, .. } => sum(node_values(node), all),
        Field::Inserted { .. } => all,
    }
}

#[cycle(values)]
fn fields_values(fields: &[Field]) -> u64
    ensures { result ≡ field_values (fields_view fields.now) }
{
    let mut all = 0;
    for field in fields {
        all = with_field(all, field);
    }
    all
}

#[cycle(values)]
fn alternatives_values(alternatives: &[Alternative]) -> u64
    ensures { result ≡ alternative_values (alternatives_view alternatives.now) }
{
    let mut most = 0u64;
    for alternative in alternatives {
        most = most.max(node_values(&alternative.node));
    }
    most
}

/// The greatest number of values of a tree's packet: a number leaf is 1, a string 1 and its greatest size, a SEQUENCE 1
/// and the sum of its components, a list 1 and its greatest size times its element, a CHOICE 1 and its greatest
/// alternative, contained octets 1 and their content. Every sum and product is held down to 2^40. It takes no memory.
pub fn value_count(tree: &Tree) -> u64
    ensures { result ≡ count_of (grammar_of tree.now.root) }
{
    node_values(tree.root())
}
