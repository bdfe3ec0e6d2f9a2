ghost use Rattle.std.specs.Prelude.{◌≡◌, ◌⊎◌, option_copied, IfErr, IfOk, IsSome, MatchOption, None, OnOk};
ghost use Rattle.acn_index.specs.Views.{index_view};
ghost use Rattle.acn_world.specs.Viewed.{world_view};
ghost use Rattle.acn_index.specs.World as world;
ghost use Rattle.acn_world.specs.Faults as spec;
ghost use Rattle.acn_world.specs.declared.fault.NameFault.TheVariants as fault;
ghost use Rattle.acn_names.specs.Rounds.{IsCycleFault};

use crate::early::early_fault;
use crate::few::are_few;
use crate::gathering::gather;
use crate::wrong::late_fault;
use acn_cycles::{Round, first_cycle};
use acn_index::index::Index;
use acn_index::lookup::module_at;
use acn_index::references::{assignment, name_of};
use acn_num::{Name, NoMemory, Row};
use acn_world::{NameFault, Sources, TypeId, World};
use std::alloc::Global;

// The name of the module of an assignment.
fn owner_at(index: &Index, place: TypeId) -> Option<&Name>
    ensures { option_copied result ≡ spec.module_name_at (index_view index.now) place }
{
    let owner = module_at(index, place.module)?;
    Some(&owner.name)
}

// The name of an assignment.
fn name_at(index: &Index, place: TypeId) -> Option<&Name>
    ensures { option_copied result ≡ spec.name_at (index_view index.now) place }
{
    let item = assignment(index, place)?;
    Some(name_of(item))
}

// The names of assignments.
fn names_at(alloc: Global, index: &Index, way: &[TypeId]) -> Result<Row<Name>, NoMemory>
    ensures { IfOk result (λ names. names ≡ spec.names_at (index_view index.now) way.now) }
{
    let mut names = Vec::new(alloc);
    for place in way {
        match name_at(index, *place) {
            None => {}
            Some(name) => {
                let name = Name::copy(alloc, name.bytes())?;
                names.push(name)?;
            }
        }
    }
    Ok(Row::from_vec(names))
}

// The fault of what reaches itself.
fn cycle_fault(alloc: Global, index: &Index, round: &Round) -> Result<NameFault, NoMemory>
    requires { IsSome (world.assignment (index_view index.now) round.now.first) }
    ensures { IfOk result (λ f. IsCycleFault (index_view index.now) round.now.first round.now.way f) }
{
    let owner = owner_at(index, round.first).unwrap();
    let own = name_at(index, round.first).unwrap();
    let names = names_at(alloc, index, round.way.items())?;
    let module = Name::copy(alloc, owner.bytes())?;
    let name = Name::copy(alloc, own.bytes())?;
    Ok(NameFault::Cycle {
        module,
        name,
        names,
    })
}

// The fault from the cycles on.
fn later_fault(alloc: Global, index: &Index) -> Result<Option<NameFault>, NoMemory>
    requires { spec.early_fault (index_view index.now) ≡ None }
    ensures { IfOk result (λ found. MatchOption found (spec.IsSound (index_view index.now)) (spec.IsFault (index_view index.now))) }
{
    match first_cycle(alloc, index)? {
        None => late_fault(alloc, index),
        Some(round) => {
            let fault = cycle_fault(alloc, index, &round)?;
            Ok(Some(fault))
        }
    }
}

// The fault of the names.
fn fault_in(alloc: Global, index: &Index) -> Result<Option<NameFault>, NoMemory>
    ensures { IfOk result (λ found. MatchOption found (spec.IsSound (index_view index.now)) (spec.IsFault (index_view index.now))) }
{
    match early_fault(alloc, index)? {
        None => later_fault(alloc, index),
        Some(fault) => Ok(Some(fault)),
    }
}

/// Resolves the names of the sources: the world of their modules and tables, if each name leads somewhere, none to
/// itself, and each to what it must be; else the first fault, by the order of the kinds and then of the text. Places
/// are numbered by 32 bits, so that more modules and assignments than these number can't be held: NoMemory.
pub fn resolve(alloc: Global, sources: Sources) -> Result<World, NameFault>
    ensures world { IfOk result (λ all. world_view all ≡ world.world_of sources) }
    ensures sound { OnOk result (spec.IsSound (world.world_of sources)) }
    ensures fault { IfErr result (λ f. (f ≡ fault.NoMemory) ⊎ spec.IsFault (world.world_of sources) f) }
{
    if !are_few(&sources) {
        return Err(NameFault::NoMemory);
    }
    let index = gather(alloc, sources)?;
    match fault_in(alloc, &index) {
        Err(NoMemory) => Err(NameFault::NoMemory),
        Ok(found) => match found {
            None => match World::from_index(alloc, index) {
                Ok(all) => Ok(all),
                Err(NoMemory) => Err(NameFault::NoMemory),
            },
            Some(fault) => Err(fault),
        },
    }
}
