ghost use Rattle.std.specs.Prelude.{◌≡◌, ◌++◌, map, OnOk, Option, Some, None, option_map};
ghost use Rattle.acn_asn_syntax.specs.View.{type_view, base_view, constraint_view, component_view, alternative_view, set_view, components_of, alternatives_of, constraints_of};
ghost use Rattle.acn_mentions.specs.Mentioned.{governor_view, mentions_view};
ghost use Rattle.acn_mentions.specs.Mentions as spec;

use crate::mention::{Mention, Role};
use crate::set_mentions::{Place, push_set};
use acn_asn_syntax::{
    Alternative, AsnBase, AsnType, AsnValue, Assign, Component, Constraint, Rest,
};
use acn_num::NoMemory;

// Adds the identifier behind DEFAULT, where it is one.
fn push_default<'t>(
    of: &'t AsnType,
    rest: &'t Rest,
    all: &mut Vec<Mention<'t>>,
) -> Result<(), NoMemory>
    ensures { OnOk result (mentions_view all.new.items ≡ mentions_view all.old.items ++ spec.default_mentions (type_view of.now) rest.now) }
{
    match rest {
        Rest::Default(AsnValue::Ref(name)) => {
            all.push(Mention::Default { of, name })?;
            Ok(())
        }
        Rest::Default(AsnValue::Number(_, _)) => Ok(()),
        Rest::Default(AsnValue::True) => Ok(()),
        Rest::Default(AsnValue::False) => Ok(()),
        Rest::Default(AsnValue::Null) => Ok(()),
        Rest::Default(AsnValue::Bits(_)) => Ok(()),
        Rest::Default(AsnValue::Hex(_)) => Ok(()),
        Rest::Default(AsnValue::Text(_)) => Ok(()),
        Rest::Required => Ok(()),
        Rest::Optional => Ok(()),
    }
}

// Adds the identifiers in the set of a constraint.
fn push_constraint_set<'t>(
    set: &'t acn_asn_syntax::Set,
    governor: Option<&'t AsnType>,
    role: Role,
    all: &mut Vec<Mention<'t>>,
) -> Result<(), NoMemory>
    ensures { OnOk result (mentions_view all.new.items ≡ mentions_view all.old.items ++ spec.in_set (governor_view governor.entry) role (set_view set.now)) }
{
    push_set(set, Place { governor, role }, all)
}

/// Adds what is mentioned in a type, in the order of the text.
#[cycle(types)]
#[tactic(auto, unfolding(crate::specs::Mentions::mentions, crate::specs::Mentions::base_mentions, crate::specs::Mentions::component_mentions, crate::specs::Mentions::alternative_mentions, crate::specs::Mentions::all_constraint_mentions, crate::specs::Mentions::constraint_mentions), using(acn_asn_syntax::proofs::Views::type_views, acn_asn_syntax::proofs::Views::part_views))]
pub fn push_type<'t>(of: &'t AsnType, all: &mut Vec<Mention<'t>>) -> Result<(), NoMemory>
    ensures { OnOk result (mentions_view all.new.items ≡ mentions_view all.old.items ++ spec.mentions (type_view of.now)) }
{
    push_base(&of.base, all)?;
    push_constraints(of.constraints.items(), Some(of), all)?;
    Ok(())
}

// Adds what is mentioned in a type without its constraints.
#[cycle(types)]
#[tactic(auto, unfolding(crate::specs::Mentions::mentions, crate::specs::Mentions::base_mentions, crate::specs::Mentions::component_mentions, crate::specs::Mentions::alternative_mentions, crate::specs::Mentions::all_constraint_mentions, crate::specs::Mentions::constraint_mentions), using(acn_asn_syntax::proofs::Views::type_views, acn_asn_syntax::proofs::Views::part_views))]
fn push_base<'t>(base: &'t AsnBase, all: &mut Vec<Mention<'t>>) -> Result<(), NoMemory>
    ensures { OnOk result (mentions_view all.new.items ≡ mentions_view all.old.items ++ spec.base_mentions (base_view base.now)) }
{
    match base {
        AsnBase::Ref(from, name) => {
            all.push(Mention::Type { from, name })?;
            Ok(())
        }
        AsnBase::Sequence(components) => push_components(components.items(), all),
        AsnBase::SequenceOf(between, of) => {
            push_between(between, all)?;
            push_type(of.get(), all)?;
            Ok(())
        }
        AsnBase::Choice(alternatives) => push_alternatives(alternatives.items(), all),
        AsnBase::Boolean => Ok(()),
        AsnBase::Null => Ok(()),
        AsnBase::Integer(_) => Ok(()),
        AsnBase::Enumerated(_) => Ok(()),
        AsnBase::OctetString => Ok(()),
        AsnBase::BitString => Ok(()),
        AsnBase::Ia5String => Ok(()),
    }
}

// Adds what is mentioned in components.
#[cycle(types)]
#[tactic(auto, unfolding(crate::specs::Mentions::mentions, crate::specs::Mentions::base_mentions, crate::specs::Mentions::component_mentions, crate::specs::Mentions::alternative_mentions, crate::specs::Mentions::all_constraint_mentions, crate::specs::Mentions::constraint_mentions), using(acn_asn_syntax::proofs::Views::type_views, acn_asn_syntax::proofs::Views::part_views))]
fn push_components<'t>(
    components: &'t [Component],
    all: &mut Vec<Mention<'t>>,
) -> Result<(), NoMemory>
    ensures { OnOk result (mentions_view all.new.items ≡ mentions_view all.old.items ++ spec.component_mentions (components_of (map component_view components.now))) }
{
    for component in components {
        push_component(component, all)?;
    }
    Ok(())
}

// Adds what is mentioned in a component.
#[cycle(types)]
#[tactic(auto, unfolding(crate::specs::Mentions::mentions, crate::specs::Mentions::base_mentions, crate::specs::Mentions::component_mentions, crate::specs::Mentions::alternative_mentions, crate::specs::Mentions::all_constraint_mentions, crate::specs::Mentions::constraint_mentions), using(acn_asn_syntax::proofs::Views::type_views, acn_asn_syntax::proofs::Views::part_views))]
fn push_component<'t>(component: &'t Component, all: &mut Vec<Mention<'t>>) -> Result<(), NoMemory>
    ensures { OnOk result (mentions_view all.new.items ≡ mentions_view all.old.items ++ (spec.mentions (component_view component.now).of ++ spec.default_mentions (component_view component.now).of (component_view component.now).rest)) }
{
    push_type(&component.of, all)?;
    push_default(&component.of, &component.rest, all)?;
    Ok(())
}

// Adds what is mentioned in alternatives.
#[cycle(types)]
#[tactic(auto, unfolding(crate::specs::Mentions::mentions, crate::specs::Mentions::base_mentions, crate::specs::Mentions::component_mentions, crate::specs::Mentions::alternative_mentions, crate::specs::Mentions::all_constraint_mentions, crate::specs::Mentions::constraint_mentions), using(acn_asn_syntax::proofs::Views::type_views, acn_asn_syntax::proofs::Views::part_views))]
fn push_alternatives<'t>(
    alternatives: &'t [Alternative],
    all: &mut Vec<Mention<'t>>,
) -> Result<(), NoMemory>
    ensures { OnOk result (mentions_view all.new.items ≡ mentions_view all.old.items ++ spec.alternative_mentions (alternatives_of (map alternative_view alternatives.now))) }
{
    for alternative in alternatives {
        push_alternative(alternative, all)?;
    }
    Ok(())
}

// Adds what is mentioned in an alternative.
#[cycle(types)]
#[tactic(auto, unfolding(crate::specs::Mentions::mentions, crate::specs::Mentions::base_mentions, crate::specs::Mentions::component_mentions, crate::specs::Mentions::alternative_mentions, crate::specs::Mentions::all_constraint_mentions, crate::specs::Mentions::constraint_mentions), using(acn_asn_syntax::proofs::Views::type_views, acn_asn_syntax::proofs::Views::part_views))]
fn push_alternative<'t>(
    alternative: &'t Alternative,
    all: &mut Vec<Mention<'t>>,
) -> Result<(), NoMemory>
    ensures { OnOk result (mentions_view all.new.items ≡ mentions_view all.old.items ++ spec.mentions (alternative_view alternative.now).of) }
{
    push_type(&alternative.of, all)
}

// Adds what is mentioned in constraints of a type.
#[cycle(types)]
#[tactic(auto, unfolding(crate::specs::Mentions::mentions, crate::specs::Mentions::base_mentions, crate::specs::Mentions::component_mentions, crate::specs::Mentions::alternative_mentions, crate::specs::Mentions::all_constraint_mentions, crate::specs::Mentions::constraint_mentions), using(acn_asn_syntax::proofs::Views::type_views, acn_asn_syntax::proofs::Views::part_views))]
fn push_constraints<'t>(
    constraints: &'t [Constraint],
    governor: Option<&'t AsnType>,
    all: &mut Vec<Mention<'t>>,
) -> Result<(), NoMemory>
    ensures { OnOk result (mentions_view all.new.items ≡ mentions_view all.old.items ++ spec.all_constraint_mentions (governor_view governor.entry) (constraints_of (map constraint_view constraints.now))) }
{
    for constraint in constraints {
        push_constraint(constraint, governor, all)?;
    }
    Ok(())
}

// Adds what is mentioned in a constraint of a type.
#[cycle(types)]
#[tactic(auto, unfolding(crate::specs::Mentions::mentions, crate::specs::Mentions::base_mentions, crate::specs::Mentions::component_mentions, crate::specs::Mentions::alternative_mentions, crate::specs::Mentions::all_constraint_mentions, crate::specs::Mentions::constraint_mentions), using(acn_asn_syntax::proofs::Views::type_views, acn_asn_syntax::proofs::Views::part_views))]
fn push_constraint<'t>(
    constraint: &'t Constraint,
    governor: Option<&'t AsnType>,
    all: &mut Vec<Mention<'t>>,
) -> Result<(), NoMemory>
    ensures { OnOk result (mentions_view all.new.items ≡ mentions_view all.old.items ++ spec.constraint_mentions (governor_view governor.entry) (constraint_view constraint.now)) }
{
    match constraint {
        Constraint::Set(set) => push_constraint_set(set, governor, Role::Element, all),
        Constraint::Size(set) => push_constraint_set(set, governor, Role::Size, all),
        Constraint::Containing(of) => push_type(of.get(), all),
    }
}

// Adds what is mentioned between SEQUENCE and OF.
#[cycle(types)]
#[tactic(auto, unfolding(crate::specs::Mentions::mentions, crate::specs::Mentions::base_mentions, crate::specs::Mentions::component_mentions, crate::specs::Mentions::alternative_mentions, crate::specs::Mentions::all_constraint_mentions, crate::specs::Mentions::constraint_mentions), using(acn_asn_syntax::proofs::Views::type_views, acn_asn_syntax::proofs::Views::part_views))]
fn push_between<'t>(
    between: &'t Option<Constraint>,
    all: &mut Vec<Mention<'t>>,
) -> Result<(), NoMemory>
    ensures { OnOk result (mentions_view all.new.items ≡ mentions_view all.old.items ++ spec.between_mentions (option_map constraint_view between.now)) }
{
    match between {
        None => Ok(()),
        Some(constraint) => push_constraint(constraint, None, all),
    }
}
