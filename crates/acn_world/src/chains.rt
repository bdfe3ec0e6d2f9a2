ghost use Rattle.std.specs.Prelude.{◌≡◌, ◌++◌, map, flat_map, filter_map, reverse, option_map, option_to_list, OnOk, IfOk};
ghost use Rattle.acn_asn_syntax.specs.View.{constraint_view};
ghost use Rattle.acn_index.specs.Views.{index_view};
ghost use Rattle.acn_index.specs.Linked.{link_view};
ghost use Rattle.acn_world.specs.Chained.{chain_view, constraints_view, entries_view, entry_view};
ghost use Rattle.acn_ends.specs.Ends.{AreRight};
ghost use Rattle.acn_index.specs.Chains as spec;
ghost use Rattle.acn_world.specs.Silent.{silent_step};

use crate::entries::{EntryAt, placed_entry};
use crate::silent::telling_links;
use acn_asn_syntax::{AsnType, Constraint};
use acn_ends::Ends;
use acn_index::chain::{Link, last_link};
use acn_index::index::Index;
use acn_num::{NoMemory, Row};
use std::alloc::Global;

/// What stands along the chain of a type. Both rows go from the base outward.
#[derive(Drop)]
pub struct Chain<'w> {
    /// The type behind all references.
    pub base: &'w AsnType,
    /// The module in which it stands.
    pub module: u32,
    /// The constraints, each with the number of the ASN.1 module in which it stands.
    pub constraints: Row<(u32, &'w Constraint)>,
    /// The ACN entries of the types that the chain names, each with its place in the text.
    pub entries: Row<EntryAt<'w>>,
}

// Adds the constraints of a type.
fn push_constraints<'w>(
    owner: u32,
    constraints: &'w [Constraint],
    all: &mut Row<(u32, &'w Constraint)>,
) -> Result<(), NoMemory>
    ensures { OnOk result (constraints_view all.new ≡ constraints_view all.old ++ map (λ c. (owner, c)) (map constraint_view constraints.now)) }
{
    for constraint in constraints {
        all.push((owner, constraint))?;
    }
    Ok(())
}

// Adds the constraints of a link.
#[tactic(auto, using(acn_asn_syntax::proofs::Views::open_type, acn_asn_syntax::proofs::Views::constraints_back))]
fn push_link<'w>(link: Link<'w>, all: &mut Row<(u32, &'w Constraint)>) -> Result<(), NoMemory>
    ensures { OnOk result (constraints_view all.new ≡ constraints_view all.old ++ spec.link_constraints (link_view link.entry)) }
{
    push_constraints(link.owner, link.of.constraints.items(), all)
}

// The constraints of the links, in order.
fn constraints_along<'w>(
    alloc: Global,
    along: &[Link<'w>],
) -> Result<Row<(u32, &'w Constraint)>, NoMemory>
    ensures { IfOk result (λ all. constraints_view all ≡ flat_map spec.link_constraints (map link_view along.now)) }
{
    let mut all = Row::new(alloc);
    for link in along {
        push_link(*link, &mut all)?;
    }
    Ok(all)
}

/// The entry of a link's assignment.
pub fn link_entry<'w>(index: &'w Index, link: Link<'w>) -> Option<EntryAt<'w>>
    ensures { option_map entry_view result ≡ spec.link_entry (index_view index.now) (link_view link.entry) }
{
    let place = link.assigned?;
    placed_entry(index, place)
}

// Adds the entry of a link, where there is one.
fn push_entry<'w>(
    index: &'w Index,
    link: Link<'w>,
    all: &mut Row<EntryAt<'w>>,
) -> Result<(), NoMemory>
    ensures { OnOk result (entries_view all.new ≡ entries_view all.old ++ option_to_list (spec.link_entry (index_view index.now) (link_view link.entry))) }
{
    match link_entry(index, link) {
        None => Ok(()),
        Some(entry) => all.push(entry),
    }
}

// The entries of the links, in order.
fn entries_along<'w>(
    alloc: Global,
    index: &'w Index,
    along: &[Link<'w>],
) -> Result<Row<EntryAt<'w>>, NoMemory>
    ensures { IfOk result (λ all. entries_view all ≡ filter_map (spec.link_entry (index_view index.now)) (map link_view along.now)) }
{
    let mut all = Row::new(alloc);
    for link in along {
        push_entry(index, *link, &mut all)?;
    }
    Ok(all)
}

/// What stands along the chain that begins with a link, where it is noted where silent links end.
#[tactic(auto, unfolding(acn_index::specs::Chains::chain_of))]
pub fn chain_of<'w>(
    alloc: Global,
    index: &'w Index,
    silent: &Ends,
    first: Link<'w>,
) -> Result<Chain<'w>, NoMemory>
    requires { AreRight (silent_step (index_view index.now)) silent.now }
    ensures { IfOk result (λ chain. chain_view chain ≡ spec.chain_of (index_view index.now) (link_view first.entry)) }
{
    let mut along = telling_links(alloc, index, silent, first)?;
    let base = last_link(first, along.as_slice());
    along.reverse();
    let constraints = constraints_along(alloc, along.as_slice())?;
    let entries = entries_along(alloc, index, along.as_slice())?;
    Ok(Chain {
        base: base.of,
        module: base.owner,
        constraints,
        entries,
    })
}
