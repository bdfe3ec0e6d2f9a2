ghost use Rattle.std.specs.Prelude.{◌≡◌, ◌++◌, option_map, OnOk, IfOk, length, ◌<◌};
ghost use Rattle.acn_index.specs.Views.{index_view};
ghost use Rattle.acn_world.specs.Unknown as unknown;
ghost use Rattle.acn_world.specs.Faults as spec;
ghost use Rattle.acn_repeated.specs.Blamed.{blame_view, blames_view};

use crate::first::{fault_where, first_blame};
use crate::missing::{push_missing_acn, push_missing_modules};
use crate::unknown::first_in_modules;
use crate::unknown_acn::push_acn_modules;
use acn_hints::Hints;
use acn_index::index::Index;
use acn_num::NoMemory;
use acn_repeated::{Blame, push_repeats};
use acn_world::NameFault;
use std::alloc::Global;

// Adds the modules that aren't there.
#[tactic(auto, unfolding(acn_world::specs::Unknown::missing_modules))]
fn push_missing<'w>(
    alloc: Global,
    index: &'w Index,
    all: &mut Vec<Blame<'w>>,
) -> Result<(), NoMemory>
    ensures { OnOk result (blames_view all.new.items ≡ blames_view all.old.items ++ unknown.missing_modules (index_view index.now)) }
{
    push_missing_modules(alloc, index, index.modules.items(), all)?;
    push_missing_acn(alloc, index, index.acn.items(), all)?;
    Ok(())
}

// The first reference that names nothing.
#[tactic(auto, unfolding(acn_world::specs::Unknown::unknowns), using(crate::proofs::FirstFound::first_append, crate::proofs::FirstFound::mapped_some, crate::proofs::FirstFound::mapped_none))]
fn first_unknown<'w>(alloc: Global, index: &'w Index) -> Result<Option<Blame<'w>>, NoMemory>
    ensures { IfOk result (λ found. option_map blame_view found ≡ spec.first (unknown.unknowns (index_view index.now))) }
{
    let mut hints = Hints::new(alloc);
    let found = first_in_modules(alloc, index, &mut hints, index.modules.items())?;
    if found.is_some() {
        return Ok(found);
    }
    let mut all = Vec::new(alloc);
    push_acn_modules(alloc, index, index.acn.items(), &mut all)?;
    Ok(first_blame(all.as_slice()))
}

// The first fault before the cycles.
#[tactic(auto, unfolding(acn_world::specs::Faults::early_fault), using(crate::proofs::FirstFound::first_append, crate::proofs::FirstFound::mapped_some, crate::proofs::FirstFound::mapped_none))]
fn first_early<'w>(alloc: Global, index: &'w Index) -> Result<Option<Blame<'w>>, NoMemory>
    ensures { IfOk result (λ found. option_map blame_view found ≡ spec.early_fault (index_view index.now)) }
{
    let mut all = Vec::new(alloc);
    push_repeats(alloc, index, &mut all)?;
    push_missing(alloc, index, &mut all)?;
    let found = first_blame(all.as_slice());
    if found.is_some() {
        return Ok(found);
    }
    first_unknown(alloc, index)
}

/// The fault before the cycles: of Repeated, NoModule and Unknown, in this order of kinds, the first in the text.
pub fn early_fault(alloc: Global, index: &Index) -> Result<Option<NameFault>, NoMemory>
    ensures { IfOk result (λ f. f ≡ spec.early_fault (index_view index.now)) }
{
    let found = first_early(alloc, index)?;
    fault_where(alloc, found)
}
