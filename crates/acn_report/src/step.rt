//! The steps from node to node.

ghost use Rattle.std.specs.Prelude.{◌≡◌, option_map};
ghost use Rattle.acn_grammar.specs.View.{grammar_of, field_of, fields_view, alternatives_view};
ghost use Rattle.acn_report.specs.Names.{named_child, named_in, field_named, alternative_named, step_from, step_is, has_name};

use acn_num::Name;
use acn_tree::{Alternative, Body, Field, Node};

/// How the step to an element of a list is shown.
#[derive(Clone, Copy)]
pub enum Elements {
    /// With its number, as `[2]`.
    Numbered,
    /// As `[]`.
    Bare,
}

/// A step, as a path shows it.
#[derive(Clone, Copy)]
pub enum Step<'t> {
    /// To a field or an alternative.
    Named(&'t Name),
    /// To the element of this number.
    Element(u32),
    /// To the content of octets.
    Content,
}

/// Whether the step has a name.
pub fn is_named(step: &Step<'_>) -> bool
    ensures { result ≡ has_name (step_is step.now) }
{
    match step {
        Step::Named(_) => true,
        Step::Element(_) => false,
        Step::Content => false,
    }
}

// The name and the node of a field.
fn named(field: &Field) -> (&Name, &Node)
    ensures { (result.0.now, grammar_of result.1.now) ≡ named_in (field_of field.now) }
{
    match field {
        Field::Component { name, node, .. } => (name, node),
        Field::Inserted { name, node, .. } => (name, node),
    }
}

// Those of the field of a number.
fn field(fields: &[Field], step: u32) -> Option<(&Name, &Node)>
    ensures { option_map (λ c. (c.0.now, grammar_of c.1.now)) result ≡ field_named (fields_view fields.now) step }
{
    match fields.get(step as usize) {
        Some(field) => Some(named(field)),
        None => None,
    }
}

/// The name and the node of the alternative of a number.
pub fn alternative(alternatives: &[Alternative], step: u32) -> Option<(&Name, &Node)>
    ensures { option_map (λ c. (c.0.now, grammar_of c.1.now)) result ≡ alternative_named (alternatives_view alternatives.now) step }
{
    match alternatives.get(step as usize) {
        Some(alternative) => Some((&alternative.name, &alternative.node)),
        None => None,
    }
}

// The step to a child with a name.
fn step_to<'t>(child: Option<(&'t Name, &'t Node)>) -> Option<(Step<'t>, &'t Node)>
    ensures { option_map (λ c. (step_is c.0, grammar_of c.1.now)) result ≡ option_map named_child (option_map (λ c. (c.0.now, grammar_of c.1.now)) child.entry) }
{
    match child {
        Some((name, node)) => Some((Step::Named(name), node)),
        None => None,
    }
}

/// The step of a number from a node, and the node that it leads to.
pub fn step_of(node: &Node, step: u32) -> Option<(Step<'_>, &Node)>
    ensures { option_map (λ c. (step_is c.0, grammar_of c.1.now)) result ≡ step_from (grammar_of node.now) step }
{
    match &node.body {
        Body::Seq(seq) => step_to(field(seq.fields.items(), step)),
        Body::Choice(choice) => step_to(alternative(choice.alternatives.items(), step)),
        Body::List(_, element) => Some((Step::Element(step), element.get())),
        Body::Contained(_, content) => Some((Step::Content, content.get())),
        _ => None,
    }
}
