ghost use Rattle.std.specs.Prelude.{◌≡◌, ◌<◌, ◌++◌, length, map, filter, flat_map, option_to_list, OnOk, IfOk, IfSome, Some};
ghost use Rattle.std.specs.List.{enumerate_from, list_any};
ghost use Rattle.std.specs.HashSet.{contains};
ghost use Rattle.acn_asn_syntax.specs.Mirror as plain;
ghost use Rattle.acn_asn_syntax.specs.View.{module_view, assign_view};
ghost use Rattle.acn_ends.specs.Ends.{AreRight};
ghost use Rattle.acn_index.specs.Views.{index_view};
ghost use Rattle.acn_index.specs.Linked.{link_view};
ghost use Rattle.acn_index.specs.World as world;
ghost use Rattle.acn_index.specs.Chains as chains;
ghost use Rattle.acn_world.specs.Faults as spec;
ghost use Rattle.acn_world.specs.Parameters as parameters;

use crate::chains::link_entry;
use crate::referring::push_referred;
use acn_asn_syntax::{AsnModule, Assign};
use acn_ends::{End, Ends, Spot, Steps, ends_of};
use acn_index::TypeId;
use acn_index::chain::{Link, assigned_link, next_link};
use acn_index::ends::{place_at, spot_of};
use acn_index::index::Index;
use acn_index::places::places;
use acn_index::values::count;
use acn_num::NoMemory;
use std::alloc::Global;
use std::collections::HashSet;

// The places as a set.
fn set_of(alloc: Global, places: &[TypeId]) -> Result<HashSet<TypeId>, NoMemory>
    ensures { IfOk result (λ set. (q : TypeId) → contains world.is_same set q ≡ list_any (world.is_same q) places.now) }
{
    let mut set = HashSet::new(alloc);
    for place in places {
        set.insert(*place)?;
    }
    Ok(set)
}

// Whether the entry of a link's assignment has parameters.
fn gives_parameters(index: &Index, link: Link<'_>) -> bool
    ensures { result ≡ list_any chains.gives_parameters (option_to_list (chains.link_entry (index_view index.now) (link_view link.entry))) }
{
    match link_entry(index, link) {
        None => false,
        Some(entry) => !entry.is.parameters.items().is_empty(),
    }
}

// Whether a type has parameters, by an entry along its chain.
#[tactic(auto, unfolding(acn_index::specs::Chains::has_parameters, acn_index::specs::Chains::links))]
fn has_parameters(index: &Index, first: Link<'_>) -> bool
    ensures { result ≡ chains.has_parameters (index_view index.now) (link_view first.entry) }
{
    let mut link = first;
    for step in 0..count(index) + 1 {
        if gives_parameters(index, link) {
            return true;
        }
        match next_link(index, link) {
            None => return false,
            Some(next) => link = next,
        }
    }
    false
}

// The steps along a chain, up to a type whose entry has parameters.
#[derive(Clone, Copy)]
struct ParameterSteps<'w> {
    index: &'w Index,
}

impl<'w> Steps for ParameterSteps<'w> {
    ghost onward = { λ s p. parameters.parameter_step (index_view s.index.now) p };

    #[tactic(auto, unfolding(crate::specs::Parameters::parameter_step))]
    fn step(&self, from: Spot) -> Option<Spot> {
        let link = assigned_link(self.index, place_at(from))?;
        if gives_parameters(self.index, link) {
            return None;
        }
        let next = next_link(self.index, link)?;
        let place = next.assigned?;
        Some(spot_of(place))
    }
}

// Where these steps end, for each of the places.
fn parameter_ends(alloc: Global, index: &Index, places: &[TypeId]) -> Result<Ends, NoMemory>
    ensures { IfOk result (AreRight (parameters.parameter_step (index_view index.now))) }
{
    let mut spots = Vec::new(alloc);
    for place in places {
        spots.push(spot_of(*place))?;
    }
    ends_of(alloc, &ParameterSteps { index }, spots.as_slice())
}

// Whether the type at which steps end has parameters, where they are no more than there are assignments.
fn gives_at_end(index: &Index, end: End) -> Option<bool>
    ensures { IfSome result (parameters.GivesAtEnd (index_view index.now) end) }
{
    match end {
        End::Never => None,
        End::At { spot, steps } => {
            if steps > count(index) {
                return None;
            }
            let last = assigned_link(index, place_at(spot))?;
            Some(gives_parameters(index, last))
        }
    }
}

// Whether a type has parameters, where the end of its chain is noted.
fn noted_parameters(index: &Index, ends: &Ends, place: TypeId, link: Link<'_>) -> Option<bool>
    requires right { AreRight (parameters.parameter_step (index_view index.now)) ends.now }
    requires assigned { chains.assigned_link (index_view index.now) place ≡ Some (link_view link) }
    ensures { IfSome result (λ b. b ≡ chains.has_parameters (index_view index.now) (link_view link.entry)) }
{
    let _link = link;
    let end = ends.of(spot_of(place))?;
    gives_at_end(index, end)
}

// Whether the assignment is a type without parameters.
fn is_without_parameters(index: &Index, ends: &Ends, place: TypeId) -> bool
    requires { AreRight (parameters.parameter_step (index_view index.now)) ends.now }
    ensures { result ≡ spec.is_without_parameters (index_view index.now) (chains.assigned_link (index_view index.now) place) }
{
    match assigned_link(index, place) {
        None => false,
        Some(link) => match noted_parameters(index, ends, place, link) {
            Some(has) => !has,
            None => !has_parameters(index, link),
        },
    }
}

// Whether the type is a root, where these are the types to which others refer.
#[tactic(auto, unfolding(crate::specs::Faults::is_root))]
fn is_root(index: &Index, ends: &Ends, referred: &HashSet<TypeId>, place: TypeId) -> bool
    requires ended { AreRight (parameters.parameter_step (index_view index.now)) ends.now }
    requires seen { contains world.is_same referred.now place ≡ list_any (world.is_same place) (spec.referred (index_view index.now)) }
    ensures { result ≡ spec.is_root (index_view index.now) place }
{
    !referred.contains(&place) && is_without_parameters(index, ends, place)
}

// The roots among the places.
fn roots_among(
    alloc: Global,
    index: &Index,
    ends: &Ends,
    referred: &HashSet<TypeId>,
    places: &[TypeId],
) -> Result<Vec<TypeId>, NoMemory>
    requires ended { AreRight (parameters.parameter_step (index_view index.now)) ends.now }
    requires seen { (q : TypeId) → contains world.is_same referred.now q ≡ list_any (world.is_same q) (spec.referred (index_view index.now)) }
    ensures { IfOk result (λ all. all.items ≡ filter (spec.is_root (index_view index.now)) places.now) }
{
    let mut all = Vec::new(alloc);
    for place in places {
        if is_root(index, ends, referred, *place) {
            all.push(*place)?;
        }
    }
    Ok(all)
}

/// The types without parameters to which no other type refers, in the order of the text.
#[tactic(auto, unfolding(crate::specs::Faults::roots, crate::specs::Faults::referred))]
pub fn roots_of(alloc: Global, index: &Index) -> Result<Vec<TypeId>, NoMemory>
    ensures { IfOk result (λ all. all.items ≡ spec.roots (index_view index.now)) }
{
    let places = places(alloc, index)?;
    let mut references = Vec::new(alloc);
    push_referred(alloc, index, places.as_slice(), &mut references)?;
    let referred = set_of(alloc, references.as_slice())?;
    let ends = parameter_ends(alloc, index, places.as_slice())?;
    roots_among(alloc, index, &ends, &referred, places.as_slice())
}
