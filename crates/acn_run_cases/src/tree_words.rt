//! A tree in words: a line a node, as `acn_case_trees` reads it, with ` | ` between lines.

use acn_case_trees::{
    push_align, push_choice, push_component, push_inserted, push_leaf, push_name, push_sequence,
    push_sized, push_tests, push_text,
};
use acn_num::NoMemory;
use acn_tree::{Alternative, Body, Field, Node, Tree};
use std::alloc::Global;

// Adds what stands in front of a field's body.
fn push_head(alloc: Global, field: &Field, words: &mut String) -> Result<(), NoMemory> {
    words.push_str(" | ")?;
    match field {
        Field::Component {
            name,
            node,
            presence,
            default,
            slot,
        } => push_component(alloc, name, *slot, node.align, default, presence, words),
        Field::Inserted { name, node, slot } => {
            push_inserted(alloc, name, *slot, node.align, words)
        }
    }
}

#[cycle(words)]
fn push_fields(alloc: Global, fields: &[Field], words: &mut String) -> Result<(), NoMemory> {
    for field in fields {
        push_head(alloc, field, words)?;
        words.push_str(" : ")?;
        match field {
            Field::Component { node, .. } => push_body(alloc, &node.body, words)?,
            Field::Inserted { node, .. } => push_body(alloc, &node.body, words)?,
        }
    }
    words.push_str(" | end")?;
    Ok(())
}

#[cycle(words)]
fn push_alternatives(
    alloc: Global,
    alternatives: &[Alternative],
    words: &mut String,
) -> Result<(), NoMemory> {
    for alternative in alternatives {
        words.push_str(" | alternative ")?;
        push_name(alloc, &alternative.name, words)?;
        push_align(alternative.node.align, words)?;
        push_tests(alternative.tests.items(), words)?;
        words.push_str(" : ")?;
        push_body(alloc, &alternative.node.body, words)?;
    }
    words.push_str(" | end")?;
    Ok(())
}

#[cycle(words)]
fn push_element(alloc: Global, node: &Node, words: &mut String) -> Result<(), NoMemory> {
    words.push_str(" | element")?;
    push_align(node.align, words)?;
    words.push_str(" : ")?;
    push_body(alloc, &node.body, words)?;
    words.push_str(" | end")?;
    Ok(())
}

#[cycle(words)]
fn push_body(alloc: Global, body: &Body, words: &mut String) -> Result<(), NoMemory> {
    match body {
        Body::Num(leaf) => push_leaf(alloc, leaf, words),
        Body::Octets(sizing) => push_sized("octets", sizing, words),
        Body::Bits(sizing) => push_sized("bits", sizing, words),
        Body::Text(leaf) => push_text(leaf, words),
        Body::Seq(seq) => {
            push_sequence(seq.home.items(), words)?;
            push_fields(alloc, seq.fields.items(), words)
        }
        Body::List(sizing, element) => {
            push_sized("list", sizing, words)?;
            push_element(alloc, element.get(), words)
        }
        Body::Choice(choice) => {
            push_choice(choice.rule, words)?;
            push_alternatives(alloc, choice.alternatives.items(), words)
        }
        Body::Contained(sizing, content) => {
            push_sized("contained", sizing, words)?;
            push_element(alloc, content.get(), words)
        }
    }
}

/// The tree in words, behind its name.
pub fn tree_in_words(alloc: Global, tree: &Tree) -> Result<String, NoMemory> {
    let mut words = String::new(alloc);
    push_name(alloc, tree.name(), &mut words)?;
    push_align(tree.root().align, &mut words)?;
    words.push_str(" : ")?;
    push_body(alloc, &tree.root().body, &mut words)?;
    Ok(words)
}
