//! The node of a site, with those below it.

ghost use Rattle.std.specs.Prelude.{◌≡◌, ◌+◌, map, filter_map, IfOk};
ghost use Rattle.acn_world.specs.Viewed.{world_view};
ghost use Rattle.acn_grammar.specs.Grammar.{node as node_with, list};
ghost use Rattle.acn_grammar.specs.View.{grammar_of, field_of, alternative_of};
ghost use Rattle.acn_num.specs.declared.limits.TheConstants.{MOST_STEPS};
ghost use Rattle.acn_reasons.specs.Classes as classes;
ghost use Rattle.acn_sites.specs.Sites as sites;
ghost use Rattle.acn_sites.specs.View.{site_view, sites_view};
ghost use Rattle.acn_made.specs.Made as spec;
ghost use Rattle.acn_made.specs.Sized.{sizing_at, list_sizing_at};

use crate::fields::{push_alternative, push_field};
use crate::parts::{
    bits_node, choice_node, contained_node, list_node, nothing, number_node, octets_node,
    sequence_node, text_node,
};
use acn_grammar::{Alternative, Field, Node};
use acn_homes::Homes;
use acn_num::{Boxed, MOST_STEPS, NoMemory, Row};
use acn_reasons::{Class, class_of};
use acn_sites::{Site, sites_below};
use acn_slots::PlainTypes;
use acn_world::World;
use std::alloc::Global;

// The fields of a SEQUENCE, each made of its site.
#[cycle(made)]
fn fields<'w>(
    alloc: Global,
    world: &'w World,
    plain: &'w PlainTypes,
    homes: &Homes<'_>,
    steps: usize,
    below: &[Site<'w>],
) -> Result<Row<Field>, NoMemory>
    ensures { IfOk result (λ all. map field_of all ≡ filter_map (spec.field_at (world_view world.now) homes.now (spec.made steps (world_view world.now) homes.now)) (sites_view below.now)) }
{
    let mut all = Row::new(alloc);
    for site in below {
        let made = node(alloc, world, plain, homes, steps, site)?;
        push_field(alloc, world, plain, homes, site, made, &mut all)?;
    }
    Ok(all)
}

// The alternatives of a CHOICE, each made of its site.
#[cycle(made)]
fn alternatives<'w>(
    alloc: Global,
    world: &'w World,
    plain: &'w PlainTypes,
    homes: &Homes<'_>,
    steps: usize,
    below: &[Site<'w>],
) -> Result<Row<Alternative>, NoMemory>
    ensures { IfOk result (λ all. map alternative_of all ≡ filter_map (spec.alternative_at (world_view world.now) homes.now (spec.made steps (world_view world.now) homes.now)) (sites_view below.now)) }
{
    let mut all = Row::new(alloc);
    for site in below {
        let made = node(alloc, world, plain, homes, steps, site)?;
        push_alternative(alloc, world, plain, homes, site, made, &mut all)?;
    }
    Ok(all)
}

#[cycle(made)]
fn sequence<'w>(
    alloc: Global,
    world: &'w World,
    plain: &'w PlainTypes,
    homes: &Homes<'_>,
    steps: usize,
    site: &Site<'w>,
) -> Result<Boxed<Node>, NoMemory>
    ensures { IfOk result (λ one. grammar_of one ≡ node_with (spec.alignment_at (site_view site.now)) (spec.sequence_at (world_view world.now) homes.now (spec.made steps (world_view world.now) homes.now) (site_view site.now) (sites.sites_below (world_view world.now) (site_view site.now)))) }
{
    let below = sites_below(alloc, world, plain, site)?;
    let fields = fields(alloc, world, plain, homes, steps, below.items())?;
    sequence_node(alloc, homes, site, fields)
}

#[cycle(made)]
fn choice<'w>(
    alloc: Global,
    world: &'w World,
    plain: &'w PlainTypes,
    homes: &Homes<'_>,
    steps: usize,
    site: &Site<'w>,
) -> Result<Boxed<Node>, NoMemory>
    ensures { IfOk result (λ one. grammar_of one ≡ node_with (spec.alignment_at (site_view site.now)) (spec.choice_at (world_view world.now) homes.now (spec.made steps (world_view world.now) homes.now) (site_view site.now) (sites.sites_below (world_view world.now) (site_view site.now)))) }
{
    let below = sites_below(alloc, world, plain, site)?;
    let cases = alternatives(alloc, world, plain, homes, steps, below.items())?;
    choice_node(alloc, world, plain, homes, site, cases)
}

// The first of these sites as a node.
#[cycle(made)]
fn first_node<'w>(
    alloc: Global,
    world: &'w World,
    plain: &'w PlainTypes,
    homes: &Homes<'_>,
    steps: usize,
    site: &Site<'w>,
    below: &[Site<'w>],
) -> Result<Boxed<Node>, NoMemory>
    ensures { IfOk result (λ one. grammar_of one ≡ spec.first_at (spec.made steps (world_view world.now) homes.now) (site_view site.now) (sites_view below.now)) }
{
    match below.first() {
        None => nothing(alloc, site),
        Some(element) => {
            let made = node(alloc, world, plain, homes, steps, element)?;
            Ok(made)
        }
    }
}

#[cycle(made)]
fn list_of<'w>(
    alloc: Global,
    world: &'w World,
    plain: &'w PlainTypes,
    homes: &Homes<'_>,
    steps: usize,
    site: &Site<'w>,
) -> Result<Boxed<Node>, NoMemory>
    ensures { IfOk result (λ one. grammar_of one ≡ node_with (spec.alignment_at (site_view site.now)) (list (list_sizing_at (world_view world.now) homes.now (site_view site.now)) (spec.first_at (spec.made steps (world_view world.now) homes.now) (site_view site.now) (sites.sites_below (world_view world.now) (site_view site.now))))) }
{
    let below = sites_below(alloc, world, plain, site)?;
    let element = first_node(alloc, world, plain, homes, steps, site, below.items())?;
    list_node(alloc, world, plain, homes, site, element)
}

// Octets, with what the first of these sites says that they contain.
#[cycle(made)]
fn octets_with<'w>(
    alloc: Global,
    world: &'w World,
    plain: &'w PlainTypes,
    homes: &Homes<'_>,
    steps: usize,
    site: &Site<'w>,
    below: &[Site<'w>],
) -> Result<Boxed<Node>, NoMemory>
    ensures { IfOk result (λ one. grammar_of one ≡ node_with (spec.alignment_at (site_view site.now)) (spec.octets_at (sizing_at (world_view world.now) homes.now (site_view site.now)) (spec.made steps (world_view world.now) homes.now) (sites_view below.now))) }
{
    match below.first() {
        None => octets_node(alloc, world, plain, homes, site),
        Some(content) => {
            let made = node(alloc, world, plain, homes, steps, content)?;
            contained_node(alloc, world, plain, homes, site, made)
        }
    }
}

#[cycle(made)]
fn octets<'w>(
    alloc: Global,
    world: &'w World,
    plain: &'w PlainTypes,
    homes: &Homes<'_>,
    steps: usize,
    site: &Site<'w>,
) -> Result<Boxed<Node>, NoMemory>
    ensures { IfOk result (λ one. grammar_of one ≡ node_with (spec.alignment_at (site_view site.now)) (spec.octets_at (sizing_at (world_view world.now) homes.now (site_view site.now)) (spec.made steps (world_view world.now) homes.now) (sites.sites_below (world_view world.now) (site_view site.now)))) }
{
    let below = sites_below(alloc, world, plain, site)?;
    let made = octets_with(alloc, world, plain, homes, steps, site, below.items())?;
    Ok(made)
}

// A node that is at least one step from too deep.
#[cycle(made)]
fn formed<'w>(
    alloc: Global,
    world: &'w World,
    plain: &'w PlainTypes,
    homes: &Homes<'_>,
    steps: usize,
    site: &Site<'w>,
) -> Result<Boxed<Node>, NoMemory>
    ensures { IfOk result (λ one. grammar_of one ≡ node_with (spec.alignment_at (site_view site.now)) (spec.form_at (world_view world.now) homes.now (spec.made steps (world_view world.now) homes.now) (site_view site.now) (classes.class_of (site_view site.now)))) }
{
    match class_of(site) {
        Class::Sequence => Ok(sequence(alloc, world, plain, homes, steps, site)?),
        Class::Choice => Ok(choice(alloc, world, plain, homes, steps, site)?),
        Class::List => Ok(list_of(alloc, world, plain, homes, steps, site)?),
        Class::Octets => Ok(octets(alloc, world, plain, homes, steps, site)?),
        Class::Bits => bits_node(alloc, world, plain, homes, site),
        Class::Text => text_node(alloc, world, plain, homes, site),
        Class::Boolean => number_node(alloc, world, site),
        Class::Null => number_node(alloc, world, site),
        Class::Integer => number_node(alloc, world, site),
        Class::Enumerated => number_node(alloc, world, site),
        Class::Reference => number_node(alloc, world, site),
    }
}

// The node of a site, with those below it at most so many steps down.
#[cycle(made)]
#[tactic(auto, using(crate::proofs::Steps::too_far, crate::proofs::Steps::one_step))]
fn node<'w>(
    alloc: Global,
    world: &'w World,
    plain: &'w PlainTypes,
    homes: &Homes<'_>,
    steps: usize,
    site: &Site<'w>,
) -> Result<Boxed<Node>, NoMemory>
    ensures { IfOk result (λ one. grammar_of one ≡ spec.made steps (world_view world.now) homes.now (site_view site.now)) }
{
    if steps == 0 {
        return nothing(alloc, site);
    }
    let made = formed(alloc, world, plain, homes, steps - 1, site)?;
    Ok(made)
}

/// The node of a site, with all below it: its alignment and its form, by the type, the constraints and the nearest attributes; numbers
/// of slots, and where slots are at home, are those of `homes`. A node for which there is a reason against its site is made too; one
/// whose path has more than `MOST_STEPS` steps is a NULL.
pub fn made<'w>(
    alloc: Global,
    world: &'w World,
    plain: &'w PlainTypes,
    homes: &Homes<'_>,
    site: &Site<'w>,
) -> Result<Boxed<Node>, NoMemory>
    ensures { IfOk result (λ one. grammar_of one ≡ spec.made (MOST_STEPS + 1) (world_view world.now) homes.now (site_view site.now)) }
{
    node(alloc, world, plain, homes, MOST_STEPS + 1, site)
}
