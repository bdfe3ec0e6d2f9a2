ghost use Rattle.std.specs.Prelude.{◌≡◌, IfOk, Some, true, option_map, is_some};
ghost use Rattle.acn_world.specs.Viewed.{world_view};
ghost use Rattle.acn_world.specs.Chained.{chain_view};
ghost use Rattle.acn_constraint.specs.Constraints as constraints;
ghost use Rattle.acn_constraint.specs.Views.{fault_of};
ghost use Rattle.acn_sites.specs.View.{site_view};
ghost use Rattle.acn_reasons.specs.Constrained as spec;

use crate::classes::{Class, class_of, size_attr};
use acn_constraint::{ConstraintFault, range_of, size_of, text_of};
use acn_num::NoMemory;
use acn_sites::{Site, content_of};
use acn_world::{Chain, World};
use std::alloc::Global;

// Whether a SIZE may not be missing.
fn needs_size(site: &Site<'_>) -> bool
    ensures { result ≡ spec.needs_size (site_view site.now) }
{
    !(content_of(&site.chain).is_some() && size_attr(site).is_some())
}

// A fault, unless it is want of memory.
fn told(fault: ConstraintFault) -> Result<Option<ConstraintFault>, NoMemory>
    ensures fault { IfOk result (λ told. option_map fault_of told ≡ Some (fault_of fault)) }
    ensures of_constraints { IfOk result (λ _. is_some (fault_of fault) ≡ true) }
{
    match fault {
        ConstraintFault::NoMemory => Err(NoMemory),
        ConstraintFault::Empty => Ok(Some(fault)),
        ConstraintFault::Unbounded => Ok(Some(fault)),
        ConstraintFault::TooWide { .. } => Ok(Some(fault)),
        ConstraintFault::SizeLimit { .. } => Ok(Some(fault)),
        ConstraintFault::NotHere => Ok(Some(fault)),
    }
}

// The fault of the numbers of a chain.
#[tactic(auto, using(crate::proofs::Told::none_told, crate::proofs::Told::one_told))]
fn range_fault(
    alloc: Global,
    world: &World,
    chain: &Chain<'_>,
) -> Result<Option<ConstraintFault>, NoMemory>
    ensures { IfOk result (λ told. option_map fault_of told ≡ option_map Some (spec.fault_in (constraints.range_of (world_view world.now) (chain_view chain.now)))) }
{
    match range_of(alloc, world, chain) {
        Ok(_) => Ok(None),
        Err(fault) => told(fault),
    }
}

// The fault of the sizes and characters of a chain.
#[tactic(auto, using(crate::proofs::Told::none_told, crate::proofs::Told::one_told))]
fn text_fault(
    alloc: Global,
    world: &World,
    chain: &Chain<'_>,
) -> Result<Option<ConstraintFault>, NoMemory>
    ensures { IfOk result (λ told. option_map fault_of told ≡ option_map Some (spec.fault_in (constraints.text_of (world_view world.now) (chain_view chain.now)))) }
{
    match text_of(alloc, world, chain) {
        Ok(_) => Ok(None),
        Err(fault) => told(fault),
    }
}

// The fault of the sizes of a chain, where one that is missing may be no bound.
#[tactic(auto, using(crate::proofs::Told::missing_told, crate::proofs::Told::sized_told, crate::proofs::Told::size_told))]
fn size_fault(
    alloc: Global,
    world: &World,
    chain: &Chain<'_>,
    needed: bool,
) -> Result<Option<ConstraintFault>, NoMemory>
    ensures { IfOk result (λ told. option_map fault_of told ≡ option_map Some (spec.size_fault needed (constraints.size_of (world_view world.now) (chain_view chain.now)))) }
{
    match size_of(alloc, world, chain) {
        Ok(None) => {
            if needed {
                Ok(Some(ConstraintFault::Unbounded))
            } else {
                Ok(None)
            }
        }
        Ok(Some(_)) => Ok(None),
        Err(fault) => told(fault),
    }
}

/// The fault of the constraints of a site: what `acn_constraint` refuses, or a SIZE that is missing.
#[tactic(auto, unfolding(crate::specs::Constrained::constraint_fault))]
pub fn constraint_fault(
    alloc: Global,
    world: &World,
    site: &Site<'_>,
) -> Result<Option<ConstraintFault>, NoMemory>
    ensures { IfOk result (λ told. option_map fault_of told ≡ option_map Some (spec.constraint_fault (world_view world.now) (site_view site.now))) }
{
    let chain = &site.chain;
    match class_of(site) {
        Class::Octets => size_fault(alloc, world, chain, needs_size(site)),
        Class::Bits => size_fault(alloc, world, chain, true),
        Class::List => size_fault(alloc, world, chain, true),
        Class::Text => text_fault(alloc, world, chain),
        Class::Integer => range_fault(alloc, world, chain),
        Class::Boolean => range_fault(alloc, world, chain),
        Class::Null => range_fault(alloc, world, chain),
        Class::Enumerated => range_fault(alloc, world, chain),
        Class::Sequence => range_fault(alloc, world, chain),
        Class::Choice => range_fault(alloc, world, chain),
        Class::Reference => range_fault(alloc, world, chain),
    }
}
