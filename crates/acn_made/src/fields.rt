//! A site as a field of a SEQUENCE, or as an alternative.

ghost use Rattle.std.specs.Prelude.{◌≡◌, ◌++◌, map, option_to_list, IfOk, OnOk};
ghost use Rattle.acn_world.specs.Viewed.{world_view};
ghost use Rattle.acn_grammar.specs.View.{grammar_of, field_of, alternative_of, a_component, an_inserted};
ghost use Rattle.acn_sites.specs.View.{site_view, position_view};
ghost use Rattle.acn_made.specs.Conditions as conditions;
ghost use Rattle.acn_made.specs.Texts as texts;
ghost use Rattle.acn_made.specs.Made as spec;

use crate::conditions::{presence_of, tests_at};
use crate::texts::default_text;
use acn_asn_syntax::Rest;
use acn_grammar::{Alternative, Field, Node, Presence, Test};
use acn_homes::Homes;
use acn_num::{Boxed, Name, NoMemory, Row};
use acn_sites::{Position, Site};
use acn_slots::PlainTypes;
use acn_world::World;
use std::alloc::Global;

// What a component is beside its node.
#[derive(Drop)]
struct Head {
    name: Name,
    presence: Presence,
    default: Option<Name>,
}

// What a component of this name is beside its node.
fn head_of<'w>(
    alloc: Global,
    world: &'w World,
    plain: &'w PlainTypes,
    homes: &Homes<'_>,
    site: &Site<'w>,
    name: &Name,
    rest: &Rest,
) -> Result<Head, NoMemory>
    ensures name { IfOk result (λ head. head.name ≡ name.now) }
    ensures presence { IfOk result (λ head. head.presence ≡ conditions.presence_of rest.now (conditions.tests_at (world_view world.now) homes.now (site_view site.now))) }
    ensures default { IfOk result (λ head. head.default ≡ texts.default_text rest.now) }
{
    let tests = tests_at(alloc, world, plain, homes, site)?;
    let presence = presence_of(rest, tests);
    let default = default_text(alloc, rest)?;
    let name = Name::copy(alloc, name.bytes())?;
    Ok(Head {
        name,
        presence,
        default,
    })
}

// A component with its node.
#[tactic(auto, using(acn_grammar::proofs::Views::view_component))]
fn component(head: Head, node: Boxed<Node>, slot: Option<u32>) -> Field
    ensures { field_of result ≡ a_component head.name (grammar_of node) head.presence head.default slot }
{
    Field::Component {
        name: head.name,
        node: node.into_inner(),
        presence: head.presence,
        default: head.default,
        slot,
    }
}

// An inserted field with its node.
#[tactic(auto, using(acn_grammar::proofs::Views::view_inserted))]
fn inserted(name: Name, node: Boxed<Node>, slot: Option<u32>) -> Field
    ensures { field_of result ≡ an_inserted name (grammar_of node) slot }
{
    Field::Inserted {
        name,
        node: node.into_inner(),
        slot,
    }
}

// An alternative with its node.
#[tactic(auto, using(crate::proofs::Views::node_views))]
fn alternative(name: Name, node: Boxed<Node>, tests: Row<Test>) -> Alternative
    ensures { alternative_of result ≡ record { name = name; grammar = grammar_of node; tests = tests } }
{
    Alternative {
        name,
        node: node.into_inner(),
        tests,
    }
}

/// Adds a site as a field with its node, where it is one.
pub fn push_field<'w>(
    alloc: Global,
    world: &'w World,
    plain: &'w PlainTypes,
    homes: &Homes<'_>,
    site: &Site<'w>,
    node: Boxed<Node>,
    fields: &mut Row<Field>,
) -> Result<(), NoMemory>
    ensures { OnOk result (map field_of fields.new ≡ map field_of fields.old ++ option_to_list (spec.field_with (world_view world.now) homes.now (site_view site.now) (grammar_of node) (position_view site.now.position))) }
{
    let slot = homes.number(site.path.items());
    match site.position {
        Position::Component { name, rest } => {
            let head = head_of(alloc, world, plain, homes, site, name, rest)?;
            fields.push(component(head, node, slot))
        }
        Position::Inserted { name, .. } => {
            let name = Name::copy(alloc, name.bytes())?;
            fields.push(inserted(name, node, slot))
        }
        Position::Root { .. } => Ok(()),
        Position::Alternative { .. } => Ok(()),
        Position::Element => Ok(()),
        Position::Content => Ok(()),
    }
}

/// Adds a site as an alternative with its node, where it is one.
pub fn push_alternative<'w>(
    alloc: Global,
    world: &'w World,
    plain: &'w PlainTypes,
    homes: &Homes<'_>,
    site: &Site<'w>,
    node: Boxed<Node>,
    alternatives: &mut Row<Alternative>,
) -> Result<(), NoMemory>
    ensures { OnOk result (map alternative_of alternatives.new ≡ map alternative_of alternatives.old ++ option_to_list (spec.alternative_with (world_view world.now) homes.now (site_view site.now) (grammar_of node) (position_view site.now.position))) }
{
    match site.position {
        Position::Alternative { name } => {
            let tests = tests_at(alloc, world, plain, homes, site)?;
            let name = Name::copy(alloc, name.bytes())?;
            alternatives.push(alternative(name, node, tests))
        }
        Position::Root { .. } => Ok(()),
        Position::Component { .. } => Ok(()),
        Position::Inserted { .. } => Ok(()),
        Position::Element => Ok(()),
        Position::Content => Ok(()),
    }
}
