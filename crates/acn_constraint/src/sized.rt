//! Whether a constraint says SIZE.

ghost use Rattle.std.specs.Prelude.{◌≡◌, map};
ghost use Rattle.acn_asn_syntax.specs.View.{seen_meet, seen_part, element_view, set_view, meet_view, part_view, meets_of, parts_of};
ghost use Rattle.acn_constraint.specs.Sized as spec;

use acn_asn_syntax::{Element, Meet, Part, Set};

/// Whether a set says SIZE.
#[cycle(sized)]
#[tactic(auto, unfolding(crate::specs::Sized::sizes_set, crate::specs::Sized::sizes_meets, crate::specs::Sized::sizes_meet, crate::specs::Sized::sizes_parts, crate::specs::Sized::sizes_part, crate::specs::Sized::sizes_element), using(acn_asn_syntax::proofs::Views::set_views))]
pub fn says_size(set: &Set) -> bool
    ensures { result ≡ spec.sizes_set (set_view set.now) }
{
    match set {
        Set::AllExcept(element) => element_says_size(element),
        Set::Union(first, more) => meet_says_size(first) || meets_say_size(more.items()),
    }
}

#[cycle(sized)]
#[tactic(auto, unfolding(crate::specs::Sized::sizes_set, crate::specs::Sized::sizes_meets, crate::specs::Sized::sizes_meet, crate::specs::Sized::sizes_parts, crate::specs::Sized::sizes_part, crate::specs::Sized::sizes_element), using(acn_asn_syntax::proofs::Views::set_views))]
fn meets_say_size(more: &[(bool, Meet)]) -> bool
    ensures { result ≡ spec.sizes_meets (meets_of (map seen_meet more.now)) }
{
    for meet in more {
        if meet_says_size(&meet.1) {
            return true;
        }
    }
    false
}

#[cycle(sized)]
#[tactic(auto, unfolding(crate::specs::Sized::sizes_set, crate::specs::Sized::sizes_meets, crate::specs::Sized::sizes_meet, crate::specs::Sized::sizes_parts, crate::specs::Sized::sizes_part, crate::specs::Sized::sizes_element), using(acn_asn_syntax::proofs::Views::set_views))]
fn meet_says_size(meet: &Meet) -> bool
    ensures { result ≡ spec.sizes_meet (meet_view meet.now) }
{
    part_says_size(&meet.first) || parts_say_size(meet.more.items())
}

#[cycle(sized)]
#[tactic(auto, unfolding(crate::specs::Sized::sizes_set, crate::specs::Sized::sizes_meets, crate::specs::Sized::sizes_meet, crate::specs::Sized::sizes_parts, crate::specs::Sized::sizes_part, crate::specs::Sized::sizes_element), using(acn_asn_syntax::proofs::Views::set_views))]
fn parts_say_size(more: &[(bool, Part)]) -> bool
    ensures { result ≡ spec.sizes_parts (parts_of (map seen_part more.now)) }
{
    for part in more {
        if part_says_size(&part.1) {
            return true;
        }
    }
    false
}

#[cycle(sized)]
#[tactic(auto, unfolding(crate::specs::Sized::sizes_set, crate::specs::Sized::sizes_meets, crate::specs::Sized::sizes_meet, crate::specs::Sized::sizes_parts, crate::specs::Sized::sizes_part, crate::specs::Sized::sizes_element), using(acn_asn_syntax::proofs::Views::set_views))]
fn part_says_size(part: &Part) -> bool
    ensures { result ≡ spec.sizes_part (part_view part.now) }
{
    match &part.but {
        None => element_says_size(&part.element),
        Some(but) => element_says_size(&part.element) || element_says_size(but),
    }
}

/// Whether an element says SIZE.
#[cycle(sized)]
#[tactic(auto, unfolding(crate::specs::Sized::sizes_set, crate::specs::Sized::sizes_meets, crate::specs::Sized::sizes_meet, crate::specs::Sized::sizes_parts, crate::specs::Sized::sizes_part, crate::specs::Sized::sizes_element), using(acn_asn_syntax::proofs::Views::set_views))]
pub fn element_says_size(element: &Element) -> bool
    ensures { result ≡ spec.sizes_element (element_view element.now) }
{
    match element {
        Element::Value(_) => false,
        Element::Range(_) => false,
        Element::SizeOf(_) => true,
        Element::From(_) => false,
        Element::Inner(set) => says_size(set.get()),
    }
}
