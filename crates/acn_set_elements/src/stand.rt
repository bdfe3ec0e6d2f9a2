//! Which elements may stand in a constraint of which type.

ghost use Rattle.std.specs.Prelude.{◌≡◌, [], ◌&&◌, map, filter, IfOk};
ghost use Rattle.std.specs.List.{list_all};
ghost use Rattle.acn_asn_syntax.specs.View.{seen_meet, seen_part, base_view, constraint_view, element_view, set_view, meet_view, part_view, meets_of, parts_of};
ghost use Rattle.acn_asn_syntax.specs.Mirror.{part_of, union_of};
ghost use Rattle.acn_world.specs.Chained.{constraints_view};
ghost use Rattle.acn_world.specs.Viewed.{world_view};
ghost use Rattle.acn_set_elements.specs.Material.{built_of};
ghost use Rattle.acn_set_elements.specs.Stands as spec;
ghost use Rattle.acn_set_elements.specs.Stands.{of_numbers, of_sizes, of_texts};
ghost use Rattle.acn_set_elements.specs.Written.{named_of as names_of};

use crate::numbers::NumberNames;
use crate::written::{character_in, number_in, plain_number_in, text_in};
use acn_asn_syntax::{AsnBase, AsnRange, AsnValue, Constraint, Element, Meet, Part, Set};
use acn_num::NoMemory;
use acn_world::World;
use std::alloc::Global;

/// What a set is built of.
#[derive(Clone, Copy)]
pub enum Material<'n> {
    /// Numbers, where these names stand for numbers.
    Numbers(&'n NumberNames<'n>),
    /// Numbers, where no name of a type's own stands for one.
    Plain,
    /// Texts.
    Texts,
    /// SIZE alone.
    Sizes,
}

/// Where a set stands and what it is to be built of.
#[derive(Clone, Copy)]
pub struct Site<'w> {
    pub world: &'w World,
    pub owner: u32,
    pub of: Material<'w>,
}

fn value_fits(site: Site<'_>, value: &AsnValue) -> bool
    ensures { result ≡ spec.value_fits (world_view site.entry.world.now) site.entry.owner (built_of site.entry.of) value.now }
{
    match site.of {
        Material::Numbers(names) => number_in(site.world, names, site.owner, value).is_some(),
        Material::Plain => plain_number_in(site.world, site.owner, value).is_some(),
        Material::Texts => text_in(site.world, site.owner, value).is_some(),
        Material::Sizes => false,
    }
}

// Whether an end of a range may stand: numbers among numbers, single characters among texts.
fn end_fits(site: Site<'_>, end: &Option<AsnValue>) -> bool
    ensures { result ≡ spec.end_fits (world_view site.entry.world.now) site.entry.owner (built_of site.entry.of) end.now }
{
    match (site.of, end) {
        (Material::Sizes, _) => false,
        (_, None) => true,
        (Material::Numbers(names), Some(value)) => {
            number_in(site.world, names, site.owner, value).is_some()
        }
        (Material::Plain, Some(value)) => plain_number_in(site.world, site.owner, value).is_some(),
        (Material::Texts, Some(value)) => character_in(site.world, site.owner, value).is_some(),
    }
}

fn range_fits(site: Site<'_>, range: &AsnRange) -> bool
    ensures { result ≡ spec.range_fits (world_view site.entry.world.now) site.entry.owner (built_of site.entry.of) range.now }
{
    end_fits(site, &range.low) && end_fits(site, &range.high)
}

/// Whether a set is built of what it is to be built of.
#[cycle(built)]
#[tactic(auto, unfolding(crate::specs::Stands::built, crate::specs::Stands::meets_built, crate::specs::Stands::meet_built, crate::specs::Stands::parts_built, crate::specs::Stands::part_built, crate::specs::Stands::element_built), using(acn_asn_syntax::proofs::Views::set_views))]
pub fn built(set: &Set, site: Site<'_>) -> bool
    ensures { result ≡ spec.built (world_view site.entry.world.now) site.entry.owner (built_of site.entry.of) (set_view set.now) }
{
    match set {
        Set::AllExcept(element) => match site.of {
            Material::Sizes => false,
            Material::Numbers(_) => element_built(element, site),
            Material::Plain => element_built(element, site),
            Material::Texts => element_built(element, site),
        },
        Set::Union(first, more) => meet_built(first, site) && meets_built(more.items(), site),
    }
}

#[cycle(built)]
#[tactic(auto, unfolding(crate::specs::Stands::built, crate::specs::Stands::meets_built, crate::specs::Stands::meet_built, crate::specs::Stands::parts_built, crate::specs::Stands::part_built, crate::specs::Stands::element_built), using(acn_asn_syntax::proofs::Views::set_views))]
fn meets_built(more: &[(bool, Meet)], site: Site<'_>) -> bool
    ensures { result ≡ spec.meets_built (world_view site.entry.world.now) site.entry.owner (built_of site.entry.of) (meets_of (map seen_meet more.now)) }
{
    for meet in more {
        if !meet_built(&meet.1, site) {
            return false;
        }
    }
    true
}

#[cycle(built)]
#[tactic(auto, unfolding(crate::specs::Stands::built, crate::specs::Stands::meets_built, crate::specs::Stands::meet_built, crate::specs::Stands::parts_built, crate::specs::Stands::part_built, crate::specs::Stands::element_built), using(acn_asn_syntax::proofs::Views::set_views))]
fn meet_built(meet: &Meet, site: Site<'_>) -> bool
    ensures { result ≡ spec.meet_built (world_view site.entry.world.now) site.entry.owner (built_of site.entry.of) (meet_view meet.now) }
{
    part_built(&meet.first, site) && parts_built(meet.more.items(), site)
}

#[cycle(built)]
#[tactic(auto, unfolding(crate::specs::Stands::built, crate::specs::Stands::meets_built, crate::specs::Stands::meet_built, crate::specs::Stands::parts_built, crate::specs::Stands::part_built, crate::specs::Stands::element_built), using(acn_asn_syntax::proofs::Views::set_views))]
fn parts_built(more: &[(bool, Part)], site: Site<'_>) -> bool
    ensures { result ≡ spec.parts_built (world_view site.entry.world.now) site.entry.owner (built_of site.entry.of) (parts_of (map seen_part more.now)) }
{
    for part in more {
        if !part_built(&part.1, site) {
            return false;
        }
    }
    true
}

#[cycle(built)]
#[tactic(auto, unfolding(crate::specs::Stands::built, crate::specs::Stands::meets_built, crate::specs::Stands::meet_built, crate::specs::Stands::parts_built, crate::specs::Stands::part_built, crate::specs::Stands::element_built), using(acn_asn_syntax::proofs::Views::set_views))]
fn part_built(part: &Part, site: Site<'_>) -> bool
    ensures { result ≡ spec.part_built (world_view site.entry.world.now) site.entry.owner (built_of site.entry.of) (part_view part.now) }
{
    match &part.but {
        None => element_built(&part.element, site),
        Some(but) => element_built(&part.element, site) && element_built(but, site),
    }
}

#[cycle(built)]
#[tactic(auto, unfolding(crate::specs::Stands::built, crate::specs::Stands::meets_built, crate::specs::Stands::meet_built, crate::specs::Stands::parts_built, crate::specs::Stands::part_built, crate::specs::Stands::element_built), using(acn_asn_syntax::proofs::Views::set_views))]
fn element_built(element: &Element, site: Site<'_>) -> bool
    ensures { result ≡ spec.element_built (world_view site.entry.world.now) site.entry.owner (built_of site.entry.of) (element_view element.now) }
{
    match element {
        Element::Value(value) => value_fits(site, value),
        Element::Range(range) => range_fits(site, range),
        Element::SizeOf(set) => match site.of {
            Material::Sizes => {
                let of = Material::Plain;
                built(set.get(), Site { of, ..site })
            }
            Material::Numbers(_) => false,
            Material::Plain => false,
            Material::Texts => false,
        },
        Element::From(_) => false,
        Element::Inner(set) => built(set.get(), site),
    }
}

// Whether a set is built of texts alone.
fn texts_stand(set: &Set, world: &World, owner: u32) -> bool
    ensures { result ≡ spec.built (world_view world.now) owner of_texts (set_view set.now) }
{
    let of = Material::Texts;
    built(set, Site { world, owner, of })
}

// Whether an element is one FROM of texts.
#[tactic(auto, using(acn_asn_syntax::proofs::Views::set_views))]
fn from_stands(element: &Element, world: &World, owner: u32) -> bool
    ensures { result ≡ spec.is_from (world_view world.now) owner (part_of (element_view element.now)) }
{
    match element {
        Element::From(set) => texts_stand(set.get(), world, owner),
        Element::Value(_) => false,
        Element::Range(_) => false,
        Element::SizeOf(_) => false,
        Element::Inner(_) => false,
    }
}

// Whether a part is one FROM of texts.
#[tactic(auto, using(acn_asn_syntax::proofs::Views::set_views))]
fn is_from(part: &Part, world: &World, owner: u32) -> bool
    ensures { result ≡ spec.is_from (world_view world.now) owner (part_view part.now) }
{
    match &part.but {
        None => from_stands(&part.element, world, owner),
        Some(_) => false,
    }
}

// Whether a part is built of SIZE alone.
fn part_sized(part: &Part, world: &World, owner: u32) -> bool
    ensures { result ≡ spec.part_built (world_view world.now) owner of_sizes (part_view part.now) }
{
    let of = Material::Sizes;
    part_built(part, Site { world, owner, of })
}

// Whether a part of a string's constraint is built of SIZE alone or is one FROM.
fn text_part(part: &Part, world: &World, owner: u32) -> bool
    ensures { result ≡ spec.text_part (world_view world.now) owner (part_view part.now) }
{
    part_sized(part, world, owner) || is_from(part, world, owner)
}

fn text_parts(more: &[(bool, Part)], world: &World, owner: u32) -> bool
    ensures { result ≡ spec.text_parts (world_view world.now) owner (parts_of (map seen_part more.now)) }
{
    for part in more {
        if !text_part(&part.1, world, owner) {
            return false;
        }
    }
    true
}

#[tactic(auto, using(acn_asn_syntax::proofs::Views::set_views))]
fn text_meet(meet: &Meet, world: &World, owner: u32) -> bool
    ensures { result ≡ spec.text_meet (world_view world.now) owner (meet_view meet.now) }
{
    text_part(&meet.first, world, owner) && text_parts(meet.more.items(), world, owner)
}

// Whether meets are built of SIZE alone.
fn union_sized(first: &Meet, more: &[(bool, Meet)], world: &World, owner: u32) -> bool
    ensures { result ≡ (spec.meet_built (world_view world.now) owner of_sizes (meet_view first.now) && spec.meets_built (world_view world.now) owner of_sizes (meets_of (map seen_meet more.now))) }
{
    let of = Material::Sizes;
    let site = Site { world, owner, of };
    meet_built(first, site) && meets_built(more, site)
}

// Whether such meets may stand on a string of characters: several meets are one part, built of SIZE alone.
fn text_union(first: &Meet, more: &[(bool, Meet)], world: &World, owner: u32) -> bool
    ensures { result ≡ spec.text_set (world_view world.now) owner (union_of (meet_view first.now) (meets_of (map seen_meet more.now))) }
{
    if more.is_empty() {
        text_meet(first, world, owner)
    } else {
        union_sized(first, more, world, owner)
    }
}

// Whether a set may stand on a string of characters.
#[tactic(auto, using(acn_asn_syntax::proofs::Views::set_views))]
fn text_set(set: &Set, world: &World, owner: u32) -> bool
    ensures { result ≡ spec.text_set (world_view world.now) owner (set_view set.now) }
{
    match set {
        Set::AllExcept(_) => false,
        Set::Union(first, more) => text_union(first, more.items(), world, owner),
    }
}

// Whether a set is built of the numbers of an INTEGER.
fn numbers_stand(names: &NumberNames<'_>, set: &Set, world: &World, owner: u32) -> bool
    ensures { result ≡ spec.built (world_view world.now) owner (of_numbers names.now) (set_view set.now) }
{
    let of = Material::Numbers(names);
    built(set, Site { world, owner, of })
}

// Whether a set is built of SIZE alone.
fn sizes_stand(set: &Set, world: &World, owner: u32) -> bool
    ensures { result ≡ spec.built (world_view world.now) owner of_sizes (set_view set.now) }
{
    let of = Material::Sizes;
    built(set, Site { world, owner, of })
}

fn set_stands(base: &AsnBase, names: &NumberNames<'_>, set: &Set, world: &World, owner: u32) -> bool
    requires { names.now ≡ names_of (base_view base.now) }
    ensures { result ≡ spec.set_stands (world_view world.now) owner (base_view base.now) (set_view set.now) }
{
    match base {
        AsnBase::Integer(_) => numbers_stand(names, set, world, owner),
        AsnBase::Ia5String => text_set(set, world, owner),
        AsnBase::OctetString => sizes_stand(set, world, owner),
        AsnBase::BitString => sizes_stand(set, world, owner),
        AsnBase::SequenceOf(_, _) => sizes_stand(set, world, owner),
        AsnBase::Boolean => false,
        AsnBase::Null => false,
        AsnBase::Enumerated(_) => false,
        AsnBase::Sequence(_) => false,
        AsnBase::Choice(_) => false,
        AsnBase::Ref(_, _) => false,
    }
}

// Whether values of the type have a size.
fn has_sizes(base: &AsnBase) -> bool
    ensures { result ≡ spec.has_sizes (base_view base.now) }
{
    match base {
        AsnBase::OctetString => true,
        AsnBase::BitString => true,
        AsnBase::Ia5String => true,
        AsnBase::SequenceOf(_, _) => true,
        AsnBase::Integer(_) => false,
        AsnBase::Boolean => false,
        AsnBase::Null => false,
        AsnBase::Enumerated(_) => false,
        AsnBase::Sequence(_) => false,
        AsnBase::Choice(_) => false,
        AsnBase::Ref(_, _) => false,
    }
}

// Whether a set is built of numbers, none of which has a name of the type's own.
fn plain_stand(set: &Set, world: &World, owner: u32) -> bool
    ensures { result ≡ spec.built (world_view world.now) owner (of_numbers []) (set_view set.now) }
{
    let of = Material::Plain;
    built(set, Site { world, owner, of })
}

fn size_stands(base: &AsnBase, set: &Set, world: &World, owner: u32) -> bool
    ensures { result ≡ spec.size_stands (world_view world.now) owner (base_view base.now) (set_view set.now) }
{
    has_sizes(base) && plain_stand(set, world, owner)
}

// Whether values of the type are octets.
fn is_octets(base: &AsnBase) -> bool
    ensures { result ≡ spec.is_octets (base_view base.now) }
{
    match base {
        AsnBase::OctetString => true,
        AsnBase::BitString => false,
        AsnBase::Ia5String => false,
        AsnBase::SequenceOf(_, _) => false,
        AsnBase::Integer(_) => false,
        AsnBase::Boolean => false,
        AsnBase::Null => false,
        AsnBase::Enumerated(_) => false,
        AsnBase::Sequence(_) => false,
        AsnBase::Choice(_) => false,
        AsnBase::Ref(_, _) => false,
    }
}

// Whether a constraint may stand on a type.
fn stands(
    base: &AsnBase,
    names: &NumberNames<'_>,
    constraint: &Constraint,
    world: &World,
    owner: u32,
) -> bool
    requires { names.now ≡ names_of (base_view base.now) }
    ensures { result ≡ spec.stands (world_view world.now) owner (base_view base.now) (constraint_view constraint.now) }
{
    match constraint {
        Constraint::Set(set) => set_stands(base, names, set, world, owner),
        Constraint::Size(set) => size_stands(base, set, world, owner),
        Constraint::Containing(_) => is_octets(base),
    }
}

// Whether each constraint may stand on a type.
fn each_stands(
    constraints: &[(u32, &Constraint)],
    base: &AsnBase,
    names: &NumberNames<'_>,
    world: &World,
) -> bool
    requires { names.now ≡ names_of (base_view base.now) }
    ensures { result ≡ list_all (λ c. spec.stands (world_view world.now) c.0 (base_view base.now) c.1) (constraints_view constraints.now) }
{
    for constraint in constraints {
        if !stands(base, names, constraint.1, world, constraint.0) {
            return false;
        }
    }
    true
}

fn is_containing(constraint: &Constraint) -> bool
    ensures { result ≡ spec.is_containing (0, constraint_view constraint.now) }
{
    match constraint {
        Constraint::Containing(_) => true,
        Constraint::Set(_) => false,
        Constraint::Size(_) => false,
    }
}

// Whether CONTAINING stands at most once.
fn contains_once(constraints: &[(u32, &Constraint)]) -> bool
    ensures { result ≡ spec.at_most_one (filter spec.is_containing (constraints_view constraints.now)) }
{
    let mut found = false;
    for constraint in constraints {
        let contains = is_containing(constraint.1);
        if found && contains {
            return false;
        }
        found = found || contains;
    }
    true
}

/// Whether each constraint may stand on a type, and CONTAINING stands at most once.
#[tactic(auto, unfolding(crate::specs::Stands::all_stand))]
pub fn all_stand(
    alloc: Global,
    constraints: &[(u32, &Constraint)],
    base: &AsnBase,
    world: &World,
) -> Result<bool, NoMemory>
    ensures { IfOk result (λ b. b ≡ spec.all_stand (world_view world.now) (base_view base.now) (constraints_view constraints.now)) }
{
    let names = NumberNames::of(alloc, base, constraints)?;
    Ok(each_stands(constraints, base, &names, world) && contains_once(constraints))
}
