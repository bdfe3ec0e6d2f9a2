ghost use Rattle.std.specs.Prelude.{◌≡◌, ◌++◌, map, OnOk, Option};
ghost use Rattle.acn_asn_syntax.specs.View.{seen_meet, seen_part, element_view, set_view, meet_view, part_view, meets_of, parts_of};
ghost use Rattle.acn_mentions.specs.Mentioned.{governor_view, mentions_view};
ghost use Rattle.acn_mentions.specs.Mentions as spec;
ghost use Rattle.acn_mentions.specs.declared.mention.Role.TheVariants as role;

use crate::mention::{Mention, Role};
use acn_asn_syntax::{AsnRange, AsnType, AsnValue, Element, Meet, Part, Set};
use acn_num::NoMemory;

/// The type whose values a constraint speaks of, and what they stand for there.
#[derive(Clone, Copy)]
pub struct Place<'t> {
    pub governor: Option<&'t AsnType>,
    pub role: Role,
}

// Adds the identifier that a value is.
fn push_value<'t>(
    value: &'t AsnValue,
    place: Place<'t>,
    all: &mut Vec<Mention<'t>>,
) -> Result<(), NoMemory>
    ensures { OnOk result (mentions_view all.new.items ≡ mentions_view all.old.items ++ spec.of_value (governor_view place.entry.governor) place.entry.role value.now) }
{
    match value {
        AsnValue::Ref(name) => {
            all.push(Mention::Constraint {
                governor: place.governor,
                role: place.role,
                name,
            })?;
            Ok(())
        }
        AsnValue::Number(_, _) => Ok(()),
        AsnValue::True => Ok(()),
        AsnValue::False => Ok(()),
        AsnValue::Null => Ok(()),
        AsnValue::Bits(_) => Ok(()),
        AsnValue::Hex(_) => Ok(()),
        AsnValue::Text(_) => Ok(()),
    }
}

// Adds the identifier that an end of a range is.
fn push_end<'t>(
    end: &'t Option<AsnValue>,
    place: Place<'t>,
    all: &mut Vec<Mention<'t>>,
) -> Result<(), NoMemory>
    ensures { OnOk result (mentions_view all.new.items ≡ mentions_view all.old.items ++ spec.of_end (governor_view place.entry.governor) place.entry.role end.now) }
{
    match end {
        None => Ok(()),
        Some(value) => push_value(value, place, all),
    }
}

// Adds those that the ends of a range are.
fn push_range<'t>(
    range: &'t AsnRange,
    place: Place<'t>,
    all: &mut Vec<Mention<'t>>,
) -> Result<(), NoMemory>
    ensures { OnOk result (mentions_view all.new.items ≡ mentions_view all.old.items ++ (spec.of_end (governor_view place.entry.governor) place.entry.role range.now.low ++ spec.of_end (governor_view place.entry.governor) place.entry.role range.now.high)) }
{
    push_end(&range.low, place, all)?;
    push_end(&range.high, place, all)
}

// The same place inside SIZE.
fn sized(place: Place<'_>) -> Place<'_>
    ensures governor { governor_view result.governor ≡ governor_view place.entry.governor }
    ensures role { result.role ≡ role.Size }
{
    Place {
        governor: place.governor,
        role: Role::Size,
    }
}

// The same place inside FROM.
fn lettered(place: Place<'_>) -> Place<'_>
    ensures governor { governor_view result.governor ≡ governor_view place.entry.governor }
    ensures role { result.role ≡ role.Letters }
{
    Place {
        governor: place.governor,
        role: Role::Letters,
    }
}

/// Adds the identifiers in a set.
#[cycle(set)]
#[tactic(auto, unfolding(crate::specs::Mentions::in_set, crate::specs::Mentions::in_meets, crate::specs::Mentions::in_meet, crate::specs::Mentions::in_parts, crate::specs::Mentions::in_part, crate::specs::Mentions::in_element), using(acn_asn_syntax::proofs::Views::set_views))]
pub fn push_set<'t>(
    set: &'t Set,
    place: Place<'t>,
    all: &mut Vec<Mention<'t>>,
) -> Result<(), NoMemory>
    ensures { OnOk result (mentions_view all.new.items ≡ mentions_view all.old.items ++ spec.in_set (governor_view place.entry.governor) place.entry.role (set_view set.now)) }
{
    match set {
        Set::AllExcept(element) => push_element(element, place, all),
        Set::Union(first, more) => {
            push_meet(first, place, all)?;
            push_meets(more.items(), place, all)?;
            Ok(())
        }
    }
}

// Adds those in meets, in order.
#[cycle(set)]
#[tactic(auto, unfolding(crate::specs::Mentions::in_set, crate::specs::Mentions::in_meets, crate::specs::Mentions::in_meet, crate::specs::Mentions::in_parts, crate::specs::Mentions::in_part, crate::specs::Mentions::in_element), using(acn_asn_syntax::proofs::Views::set_views))]
fn push_meets<'t>(
    meets: &'t [(bool, Meet)],
    place: Place<'t>,
    all: &mut Vec<Mention<'t>>,
) -> Result<(), NoMemory>
    ensures { OnOk result (mentions_view all.new.items ≡ mentions_view all.old.items ++ spec.in_meets (governor_view place.entry.governor) place.entry.role (meets_of (map seen_meet meets.now))) }
{
    for meet in meets {
        push_meet(&meet.1, place, all)?;
    }
    Ok(())
}

// Adds those in a meet.
#[cycle(set)]
#[tactic(auto, unfolding(crate::specs::Mentions::in_set, crate::specs::Mentions::in_meets, crate::specs::Mentions::in_meet, crate::specs::Mentions::in_parts, crate::specs::Mentions::in_part, crate::specs::Mentions::in_element), using(acn_asn_syntax::proofs::Views::set_views))]
fn push_meet<'t>(
    meet: &'t Meet,
    place: Place<'t>,
    all: &mut Vec<Mention<'t>>,
) -> Result<(), NoMemory>
    ensures { OnOk result (mentions_view all.new.items ≡ mentions_view all.old.items ++ spec.in_meet (governor_view place.entry.governor) place.entry.role (meet_view meet.now)) }
{
    push_part(&meet.first, place, all)?;
    push_parts(meet.more.items(), place, all)?;
    Ok(())
}

// Adds those in parts, in order.
#[cycle(set)]
#[tactic(auto, unfolding(crate::specs::Mentions::in_set, crate::specs::Mentions::in_meets, crate::specs::Mentions::in_meet, crate::specs::Mentions::in_parts, crate::specs::Mentions::in_part, crate::specs::Mentions::in_element), using(acn_asn_syntax::proofs::Views::set_views))]
fn push_parts<'t>(
    parts: &'t [(bool, Part)],
    place: Place<'t>,
    all: &mut Vec<Mention<'t>>,
) -> Result<(), NoMemory>
    ensures { OnOk result (mentions_view all.new.items ≡ mentions_view all.old.items ++ spec.in_parts (governor_view place.entry.governor) place.entry.role (parts_of (map seen_part parts.now))) }
{
    for part in parts {
        push_part(&part.1, place, all)?;
    }
    Ok(())
}

// Adds those in a part.
#[cycle(set)]
#[tactic(auto, unfolding(crate::specs::Mentions::in_set, crate::specs::Mentions::in_meets, crate::specs::Mentions::in_meet, crate::specs::Mentions::in_parts, crate::specs::Mentions::in_part, crate::specs::Mentions::in_element), using(acn_asn_syntax::proofs::Views::set_views))]
fn push_part<'t>(
    part: &'t Part,
    place: Place<'t>,
    all: &mut Vec<Mention<'t>>,
) -> Result<(), NoMemory>
    ensures { OnOk result (mentions_view all.new.items ≡ mentions_view all.old.items ++ spec.in_part (governor_view place.entry.governor) place.entry.role (part_view part.now)) }
{
    push_element(&part.element, place, all)?;
    match &part.but {
        None => Ok(()),
        Some(but) => {
            push_element(but, place, all)?;
            Ok(())
        }
    }
}

// Adds those in an element.
#[cycle(set)]
#[tactic(auto, unfolding(crate::specs::Mentions::in_set, crate::specs::Mentions::in_meets, crate::specs::Mentions::in_meet, crate::specs::Mentions::in_parts, crate::specs::Mentions::in_part, crate::specs::Mentions::in_element), using(acn_asn_syntax::proofs::Views::set_views))]
fn push_element<'t>(
    element: &'t Element,
    place: Place<'t>,
    all: &mut Vec<Mention<'t>>,
) -> Result<(), NoMemory>
    ensures { OnOk result (mentions_view all.new.items ≡ mentions_view all.old.items ++ spec.in_element (governor_view place.entry.governor) place.entry.role (element_view element.now)) }
{
    match element {
        Element::Value(value) => push_value(value, place, all),
        Element::Range(range) => push_range(range, place, all),
        Element::SizeOf(set) => push_set(set.get(), sized(place), all),
        Element::From(set) => push_set(set.get(), lettered(place), all),
        Element::Inner(set) => push_set(set.get(), place, all),
    }
}
