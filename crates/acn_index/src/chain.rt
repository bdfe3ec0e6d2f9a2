ghost use Rattle.std.specs.Prelude.{◌≡◌, ◌<◌, ◌+◌, length, map, option_map, option_copied, Option, Some, None, IfSome};
ghost use Rattle.acn_asn_syntax.specs.View.{base_view, type_view};
ghost use Rattle.acn_index.specs.Views.{index_view};
ghost use Rattle.acn_index.specs.Linked.{link_view, written_view};
ghost use Rattle.acn_index.specs.Chains as spec;
ghost use Rattle.acn_index.specs.Steps as steps;

use crate::TypeId;
use crate::ends::{place_at, spot_of};
use crate::index::Index;
use crate::references::{type_at, type_named};
use crate::values::count;
use acn_asn_syntax::{AsnBase, AsnType};
use acn_ends::End;
use acn_num::Name;

/// A reference to a type as it is written.
#[derive(Clone, Copy)]
pub struct Reference<'t> {
    pub from: &'t Option<Name>,
    pub name: &'t Name,
}

/// A type as it stands on a chain, with the number of its module and the assignment that it is the type of.
#[derive(Clone, Copy)]
pub struct Link<'w> {
    pub owner: u32,
    pub of: &'w AsnType,
    pub assigned: Option<TypeId>,
}

// The reference that a type is, where it is one.
#[tactic(auto, using(acn_asn_syntax::proofs::Views::type_views))]
fn base_reference(base: &AsnBase) -> Option<Reference<'_>>
    ensures { option_map written_view result ≡ spec.base_reference (base_view base.now) }
{
    match base {
        AsnBase::Ref(from, name) => Some(Reference { from, name }),
        AsnBase::Boolean => None,
        AsnBase::Null => None,
        AsnBase::Integer(_) => None,
        AsnBase::Enumerated(_) => None,
        AsnBase::OctetString => None,
        AsnBase::BitString => None,
        AsnBase::Ia5String => None,
        AsnBase::Sequence(_) => None,
        AsnBase::SequenceOf(None, _) => None,
        AsnBase::SequenceOf(Some(_), _) => None,
        AsnBase::Choice(_) => None,
    }
}

// The reference that a type is, where it is one.
#[tactic(auto, using(acn_asn_syntax::proofs::Views::open_type))]
fn reference_of(of: &AsnType) -> Option<Reference<'_>>
    ensures { option_map written_view result ≡ spec.reference_of (type_view of.now) }
{
    base_reference(&of.base)
}

/// The link of a type that stands in the text of the module with this number.
pub fn written(owner: u32, of: &AsnType) -> Link<'_>
    ensures { link_view result ≡ spec.written owner (type_view of.now) }
{
    Link {
        owner,
        of,
        assigned: None,
    }
}

/// The link of an assigned type.
pub fn assigned_link(index: &Index, place: TypeId) -> Option<Link<'_>>
    ensures { option_map link_view result ≡ spec.assigned_link (index_view index.now) place }
{
    let of = type_at(index, place)?;
    Some(Link {
        owner: place.module,
        of,
        assigned: Some(place),
    })
}

/// The link to which a type refers.
#[tactic(auto, unfolding(crate::specs::Chains::next_link))]
pub fn next_link<'w>(index: &'w Index, link: Link<'w>) -> Option<Link<'w>>
    ensures { option_map link_view result ≡ spec.next_link (index_view index.now) (link_view link.entry) }
{
    let reference = reference_of(link.of)?;
    let place = type_named(index, link.owner, reference.from, reference.name.bytes())?;
    assigned_link(index, place)
}

// The last link of a chain.
pub fn last_link<'w>(first: Link<'w>, all: &[Link<'w>]) -> Link<'w>
    ensures { link_view result ≡ spec.last_link (link_view first.entry) (map link_view all.now) }
{
    let mut last = first;
    for link in all {
        last = *link;
    }
    last
}

// The link behind at most so many references.
fn last_within<'w>(index: &'w Index, most: usize, first: Link<'w>) -> Link<'w>
    ensures { link_view result ≡ spec.last_within most (index_view index.now) (link_view first.entry) }
{
    let mut link = first;
    for step in 0..most {
        match next_link(index, link) {
            None => return link,
            Some(next) => link = next,
        }
    }
    link
}

// The assigned type at which steps end, where they are fewer than there are assignments.
fn link_at_end(index: &Index, end: End) -> Option<Link<'_>>
    ensures { IfSome result (λ l. steps.IsEndLink (index_view index.now) end (link_view l)) }
{
    match end {
        End::Never => None,
        End::At { spot, steps } => {
            if steps < count(index) {
                assigned_link(index, place_at(spot))
            } else {
                None
            }
        }
    }
}

// The link behind all references, as the index keeps it.
fn kept_link<'w>(index: &'w Index, first: Link<'w>) -> Option<Link<'w>>
    ensures { IfSome result (λ l. link_view l ≡ spec.base_link (index_view index.now) (link_view first.entry)) }
{
    let next = next_link(index, first)?;
    let place = next.assigned?;
    let end = index.bases.of(spot_of(place))?;
    link_at_end(index, end)
}

/// The link behind all references.
#[tactic(auto, unfolding(crate::specs::Chains::base_link, crate::specs::Chains::links))]
pub fn base_link<'w>(index: &'w Index, first: Link<'w>) -> Link<'w>
    ensures { link_view result ≡ spec.base_link (index_view index.now) (link_view first.entry) }
{
    match kept_link(index, first) {
        Some(last) => last,
        None => last_within(index, count(index), first),
    }
}

/// The type behind all references of a type.
#[tactic(auto, unfolding(crate::specs::Chains::base_of), using(acn_asn_syntax::proofs::Views::open_type))]
pub fn base_of<'w>(index: &'w Index, first: Link<'w>) -> &'w AsnBase
    ensures { base_view result.now ≡ spec.base_of (index_view index.now) (link_view first.entry) }
{
    &base_link(index, first).of.base
}
