ghost use Rattle.std.specs.Prelude.{◌≡◌, [], ◌∷◌, ◌++◌, map, OnOk, Option, Some, None, option_map};
ghost use Rattle.acn_asn_syntax.specs.View.{type_view, base_view, constraint_view, component_view, alternative_view, components_of, alternatives_of, constraints_of};
ghost use Rattle.acn_world.specs.Repeated as spec;
ghost use Rattle.acn_repeated.specs.Named.{names_view};

use crate::lists::{push_twice_items, push_twice_named};
use crate::seen::{Seen, nothing_seen, push_again, see};
use acn_asn_syntax::{Alternative, AsnBase, AsnType, Component, Constraint};
use acn_num::{Name, NoMemory};
use std::alloc::Global;

/// Adds the names that are given twice in a type, in the order of the text.
#[cycle(types)]
#[tactic(auto, unfolding(acn_world::specs::Repeated::twice, acn_world::specs::Repeated::twice_base, acn_world::specs::Repeated::twice_components, acn_world::specs::Repeated::twice_alternatives, acn_world::specs::Repeated::twice_constraints, acn_world::specs::Repeated::twice_constraint), using(acn_asn_syntax::proofs::Views::type_views, acn_asn_syntax::proofs::Views::part_views))]
pub fn push_twice<'t>(
    alloc: Global,
    of: &'t AsnType,
    all: &mut Vec<&'t Name>,
) -> Result<(), NoMemory>
    ensures { OnOk result (names_view all.new.items ≡ names_view all.old.items ++ spec.twice (type_view of.now)) }
{
    push_twice_base(alloc, &of.base, all)?;
    push_twice_constraints(alloc, of.constraints.items(), all)?;
    Ok(())
}

// Adds those in a type without its constraints.
#[cycle(types)]
#[tactic(auto, unfolding(acn_world::specs::Repeated::twice, acn_world::specs::Repeated::twice_base, acn_world::specs::Repeated::twice_components, acn_world::specs::Repeated::twice_alternatives, acn_world::specs::Repeated::twice_constraints, acn_world::specs::Repeated::twice_constraint), using(acn_asn_syntax::proofs::Views::type_views, acn_asn_syntax::proofs::Views::part_views))]
fn push_twice_base<'t>(
    alloc: Global,
    base: &'t AsnBase,
    all: &mut Vec<&'t Name>,
) -> Result<(), NoMemory>
    ensures { OnOk result (names_view all.new.items ≡ names_view all.old.items ++ spec.twice_base (base_view base.now)) }
{
    match base {
        AsnBase::Integer(named) => push_twice_named(alloc, named, all),
        AsnBase::Enumerated(items) => push_twice_items(alloc, items.items(), all),
        AsnBase::Sequence(components) => {
            let mut seen = nothing_seen(alloc);
            push_twice_components(alloc, components.items(), &mut seen, all)
        }
        AsnBase::SequenceOf(between, of) => {
            push_twice_between(alloc, between, all)?;
            push_twice(alloc, of.get(), all)?;
            Ok(())
        }
        AsnBase::Choice(alternatives) => {
            let mut seen = nothing_seen(alloc);
            push_twice_alternatives(alloc, alternatives.items(), &mut seen, all)
        }
        AsnBase::Ref(_, _) => Ok(()),
        AsnBase::Boolean => Ok(()),
        AsnBase::Null => Ok(()),
        AsnBase::OctetString => Ok(()),
        AsnBase::BitString => Ok(()),
        AsnBase::Ia5String => Ok(()),
    }
}

// Adds those in components, behind the names that were seen.
#[cycle(types)]
#[tactic(auto, unfolding(acn_world::specs::Repeated::twice, acn_world::specs::Repeated::twice_base, acn_world::specs::Repeated::twice_components, acn_world::specs::Repeated::twice_alternatives, acn_world::specs::Repeated::twice_constraints, acn_world::specs::Repeated::twice_constraint), using(acn_asn_syntax::proofs::Views::type_views, acn_asn_syntax::proofs::Views::part_views))]
fn push_twice_components<'t>(
    alloc: Global,
    components: &'t [Component],
    seen: &mut Seen<'t>,
    all: &mut Vec<&'t Name>,
) -> Result<(), NoMemory>
    ensures { OnOk result (names_view all.new.items ≡ names_view all.old.items ++ spec.twice_components seen.old (components_of (map component_view components.now))) }
{
    for component in components {
        push_twice_component(alloc, component, seen, all)?;
    }
    Ok(())
}

// Adds those of a component, and sees its name.
#[cycle(types)]
#[tactic(auto, unfolding(acn_world::specs::Repeated::twice, acn_world::specs::Repeated::twice_base, acn_world::specs::Repeated::twice_components, acn_world::specs::Repeated::twice_alternatives, acn_world::specs::Repeated::twice_constraints, acn_world::specs::Repeated::twice_constraint), using(acn_asn_syntax::proofs::Views::type_views, acn_asn_syntax::proofs::Views::part_views))]
fn push_twice_component<'t>(
    alloc: Global,
    component: &'t Component,
    seen: &mut Seen<'t>,
    all: &mut Vec<&'t Name>,
) -> Result<(), NoMemory>
    ensures all { OnOk result (names_view all.new.items ≡ names_view all.old.items ++ (spec.again (component_view component.now).name seen.old ++ spec.twice (component_view component.now).of)) }
    ensures seen { OnOk result (seen.new ≡ seen.old ++ (component_view component.now).name ∷ []) }
{
    push_again(&component.name, seen, all)?;
    push_twice(alloc, &component.of, all)?;
    see(&component.name, seen)?;
    Ok(())
}

// Adds those in alternatives, behind the names that were seen.
#[cycle(types)]
#[tactic(auto, unfolding(acn_world::specs::Repeated::twice, acn_world::specs::Repeated::twice_base, acn_world::specs::Repeated::twice_components, acn_world::specs::Repeated::twice_alternatives, acn_world::specs::Repeated::twice_constraints, acn_world::specs::Repeated::twice_constraint), using(acn_asn_syntax::proofs::Views::type_views, acn_asn_syntax::proofs::Views::part_views))]
fn push_twice_alternatives<'t>(
    alloc: Global,
    alternatives: &'t [Alternative],
    seen: &mut Seen<'t>,
    all: &mut Vec<&'t Name>,
) -> Result<(), NoMemory>
    ensures { OnOk result (names_view all.new.items ≡ names_view all.old.items ++ spec.twice_alternatives seen.old (alternatives_of (map alternative_view alternatives.now))) }
{
    for alternative in alternatives {
        push_twice_alternative(alloc, alternative, seen, all)?;
    }
    Ok(())
}

// Adds those of an alternative, and sees its name.
#[cycle(types)]
#[tactic(auto, unfolding(acn_world::specs::Repeated::twice, acn_world::specs::Repeated::twice_base, acn_world::specs::Repeated::twice_components, acn_world::specs::Repeated::twice_alternatives, acn_world::specs::Repeated::twice_constraints, acn_world::specs::Repeated::twice_constraint), using(acn_asn_syntax::proofs::Views::type_views, acn_asn_syntax::proofs::Views::part_views))]
fn push_twice_alternative<'t>(
    alloc: Global,
    alternative: &'t Alternative,
    seen: &mut Seen<'t>,
    all: &mut Vec<&'t Name>,
) -> Result<(), NoMemory>
    ensures all { OnOk result (names_view all.new.items ≡ names_view all.old.items ++ (spec.again (alternative_view alternative.now).name seen.old ++ spec.twice (alternative_view alternative.now).of)) }
    ensures seen { OnOk result (seen.new ≡ seen.old ++ (alternative_view alternative.now).name ∷ []) }
{
    push_again(&alternative.name, seen, all)?;
    push_twice(alloc, &alternative.of, all)?;
    see(&alternative.name, seen)?;
    Ok(())
}

// Adds those in constraints.
#[cycle(types)]
#[tactic(auto, unfolding(acn_world::specs::Repeated::twice, acn_world::specs::Repeated::twice_base, acn_world::specs::Repeated::twice_components, acn_world::specs::Repeated::twice_alternatives, acn_world::specs::Repeated::twice_constraints, acn_world::specs::Repeated::twice_constraint), using(acn_asn_syntax::proofs::Views::type_views, acn_asn_syntax::proofs::Views::part_views))]
fn push_twice_constraints<'t>(
    alloc: Global,
    constraints: &'t [Constraint],
    all: &mut Vec<&'t Name>,
) -> Result<(), NoMemory>
    ensures { OnOk result (names_view all.new.items ≡ names_view all.old.items ++ spec.twice_constraints (constraints_of (map constraint_view constraints.now))) }
{
    for constraint in constraints {
        push_twice_constraint(alloc, constraint, all)?;
    }
    Ok(())
}

// Adds those in a constraint.
#[cycle(types)]
#[tactic(auto, unfolding(acn_world::specs::Repeated::twice, acn_world::specs::Repeated::twice_base, acn_world::specs::Repeated::twice_components, acn_world::specs::Repeated::twice_alternatives, acn_world::specs::Repeated::twice_constraints, acn_world::specs::Repeated::twice_constraint), using(acn_asn_syntax::proofs::Views::type_views, acn_asn_syntax::proofs::Views::part_views))]
fn push_twice_constraint<'t>(
    alloc: Global,
    constraint: &'t Constraint,
    all: &mut Vec<&'t Name>,
) -> Result<(), NoMemory>
    ensures { OnOk result (names_view all.new.items ≡ names_view all.old.items ++ spec.twice_constraint (constraint_view constraint.now)) }
{
    match constraint {
        Constraint::Set(_) => Ok(()),
        Constraint::Size(_) => Ok(()),
        Constraint::Containing(of) => push_twice(alloc, of.get(), all),
    }
}

// Adds those between SEQUENCE and OF.
#[cycle(types)]
#[tactic(auto, unfolding(acn_world::specs::Repeated::twice, acn_world::specs::Repeated::twice_base, acn_world::specs::Repeated::twice_components, acn_world::specs::Repeated::twice_alternatives, acn_world::specs::Repeated::twice_constraints, acn_world::specs::Repeated::twice_constraint), using(acn_asn_syntax::proofs::Views::type_views, acn_asn_syntax::proofs::Views::part_views))]
fn push_twice_between<'t>(
    alloc: Global,
    between: &'t Option<Constraint>,
    all: &mut Vec<&'t Name>,
) -> Result<(), NoMemory>
    ensures { OnOk result (names_view all.new.items ≡ names_view all.old.items ++ spec.twice_between (option_map constraint_view between.now)) }
{
    match between {
        None => Ok(()),
        Some(constraint) => push_twice_constraint(alloc, constraint, all),
    }
}
