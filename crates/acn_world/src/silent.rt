//! The links of a chain without runs of those that say nothing.

ghost use Rattle.std.specs.Prelude.{◌≡◌, map, IfOk, IfSome};
ghost use Rattle.acn_asn_syntax.specs.View.{constraint_view};
ghost use Rattle.acn_ends.specs.Ends.{AreRight};
ghost use Rattle.acn_index.specs.Views.{index_view};
ghost use Rattle.acn_index.specs.Linked.{link_view};
ghost use Rattle.acn_index.specs.Chains as chains;
ghost use Rattle.acn_world.specs.Silent as spec;

use crate::chains::link_entry;
use acn_asn_syntax::Constraint;
use acn_ends::{End, Ends, Spot, Steps, ends_of};
use acn_index::chain::{Link, assigned_link, next_link};
use acn_index::ends::{place_at, spot_of};
use acn_index::index::Index;
use acn_index::places::places;
use acn_index::values::count;
use acn_num::NoMemory;
use std::alloc::Global;

/// A link on the way along a chain, and how many more there may be from it on.
#[derive(Clone, Copy)]
pub struct Ahead<'w> {
    pub link: Link<'w>,
    pub left: usize,
}

// Whether there are some.
#[tactic(auto, using(crate::proofs::PassedOver::mapped_items))]
fn has_some(constraints: &[Constraint]) -> bool
    ensures { result ≡ chains.has_items (map constraint_view constraints.now) }
{
    !constraints.is_empty()
}

// Whether a type has constraints of its own.
#[tactic(auto, using(acn_asn_syntax::proofs::Views::open_type, acn_asn_syntax::proofs::Views::constraints_back))]
fn has_constraints(link: Link<'_>) -> bool
    ensures { result ≡ chains.has_items (chains.constraints_part (link_view link.entry).of) }
{
    has_some(link.of.constraints.items())
}

// Whether a type says something of its own.
fn says(index: &Index, link: Link<'_>) -> bool
    ensures { result ≡ spec.says (index_view index.now) (link_view link.entry) }
{
    has_constraints(link) || link_entry(index, link).is_some()
}

// The steps along a chain, up to a type that says something.
#[derive(Clone, Copy)]
struct SilentSteps<'w> {
    index: &'w Index,
}

impl<'w> Steps for SilentSteps<'w> {
    ghost onward = { λ s p. spec.silent_step (index_view s.index.now) p };

    #[tactic(auto, unfolding(crate::specs::Silent::silent_step))]
    fn step(&self, from: Spot) -> Option<Spot> {
        let link = assigned_link(self.index, place_at(from))?;
        if says(self.index, link) {
            return None;
        }
        let next = next_link(self.index, link)?;
        let place = next.assigned?;
        Some(spot_of(place))
    }
}

/// Where these steps end, from each assignment.
pub fn silent_ends(alloc: Global, index: &Index) -> Result<Ends, NoMemory>
    ensures { IfOk result (AreRight (spec.silent_step (index_view index.now))) }
{
    let mut spots = Vec::new(alloc);
    for place in places(alloc, index)?.iter() {
        spots.push(spot_of(*place))?;
    }
    ends_of(alloc, &SilentSteps { index }, spots.as_slice())
}

// The link at which steps end, where they are fewer than the links that are left.
fn at_end(index: &Index, end: End, left: usize) -> Option<Ahead<'_>>
    ensures { IfSome result (spec.IsAtEnd (index_view index.now) end left) }
{
    match end {
        End::Never => None,
        End::At { spot, steps } => {
            if steps >= left {
                return None;
            }
            let link = assigned_link(index, place_at(spot))?;
            Some(Ahead {
                link,
                left: left - steps,
            })
        }
    }
}

// The first link from one on that says something, or is the base, where it is noted.
fn noted<'w>(index: &'w Index, ends: &Ends, next: Link<'w>, left: usize) -> Option<Ahead<'w>>
    requires { AreRight (spec.silent_step (index_view index.now)) ends.now }
    ensures { IfSome result (spec.Passes (index_view index.now) (link_view next.entry) left) }
{
    let place = next.assigned?;
    let end = ends.of(spot_of(place))?;
    at_end(index, end, left)
}

// The same, or the link itself.
fn passed<'w>(index: &'w Index, ends: &Ends, next: Link<'w>, left: usize) -> Ahead<'w>
    requires { AreRight (spec.silent_step (index_view index.now)) ends.now }
    ensures { spec.Passes (index_view index.now) (link_view next.entry) left result }
{
    match noted(index, ends, next, left) {
        Some(ahead) => ahead,
        None => Ahead { link: next, left },
    }
}

/// The links of a chain, from the outermost to the base, without runs of those that say nothing.
pub fn telling_links<'w>(
    alloc: Global,
    index: &'w Index,
    ends: &Ends,
    first: Link<'w>,
) -> Result<Vec<Link<'w>>, NoMemory>
    requires { AreRight (spec.silent_step (index_view index.now)) ends.now }
    ensures { IfOk result (λ all. chains.chain_of_links (index_view index.now) (link_view first.entry) (map link_view all.items) ≡ chains.chain_of (index_view index.now) (link_view first.entry)) }
{
    let mut all = Vec::new(alloc);
    let mut link = first;
    let mut left = count(index) + 1;
    for step in 0..count(index) + 1 {
        if left == 0 {
            return Ok(all);
        }
        all.push(link)?;
        match next_link(index, link) {
            None => return Ok(all),
            Some(next) => {
                let ahead = passed(index, ends, next, left - 1);
                link = ahead.link;
                left = ahead.left;
            }
        }
    }
    Ok(all)
}
