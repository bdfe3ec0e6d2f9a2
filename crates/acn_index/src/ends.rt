ghost use Rattle.std.specs.Prelude.{◌≡◌, IfOk};
ghost use Rattle.acn_index.specs.Views.{index_view};
ghost use Rattle.acn_index.specs.Steps as spec;

use crate::TypeId;
use crate::chain::{assigned_link, next_link};
use crate::index::Index;
use crate::places::places;
use crate::references::value_named;
use crate::values::{refers, worth_at};
use acn_ends::{Ends, Spot, Steps, ends_of};
use acn_num::NoMemory;
use std::alloc::Global;

/// An assignment as a spot.
pub fn spot_of(place: TypeId) -> Spot
    ensures { result ≡ spec.spot_of place }
{
    Spot {
        group: place.module,
        item: place.item,
    }
}

/// The assignment that a spot is.
pub fn place_at(spot: Spot) -> TypeId
    ensures { result ≡ spec.place_at spot }
{
    TypeId {
        module: spot.group,
        item: spot.item,
    }
}

// The steps along references of values.
#[derive(Clone, Copy)]
struct ValueSteps<'w> {
    index: &'w Index,
}

impl<'w> Steps for ValueSteps<'w> {
    ghost onward = { λ s p. spec.value_step (index_view s.index.now) p };

    #[tactic(auto, unfolding(crate::specs::Steps::value_step))]
    fn step(&self, from: Spot) -> Option<Spot> {
        let worth = worth_at(self.index, place_at(from))?;
        let name = refers(worth.is)?;
        let next = value_named(self.index, worth.owner, name)?;
        Some(spot_of(next))
    }
}

// The steps along references of types.
#[derive(Clone, Copy)]
struct TypeSteps<'w> {
    index: &'w Index,
}

impl<'w> Steps for TypeSteps<'w> {
    ghost onward = { λ s p. spec.type_step (index_view s.index.now) p };

    #[tactic(auto, unfolding(crate::specs::Steps::type_step))]
    fn step(&self, from: Spot) -> Option<Spot> {
        let link = assigned_link(self.index, place_at(from))?;
        let next = next_link(self.index, link)?;
        let place = next.assigned?;
        Some(spot_of(place))
    }
}

// The assignments as spots.
fn spots_of(alloc: Global, index: &Index) -> Result<Vec<Spot>, NoMemory> {
    let mut spots = Vec::new(alloc);
    for place in places(alloc, index)?.iter() {
        spots.push(spot_of(*place))?;
    }
    Ok(spots)
}

/// Where the references of values end.
pub fn lasts_of(alloc: Global, index: &Index) -> Result<Ends, NoMemory>
    ensures { IfOk result (spec.AreLasts (index_view index.now)) }
{
    let spots = spots_of(alloc, index)?;
    ends_of(alloc, &ValueSteps { index }, spots.as_slice())
}

/// Where the references of types end.
pub fn bases_of(alloc: Global, index: &Index) -> Result<Ends, NoMemory>
    ensures { IfOk result (spec.AreBases (index_view index.now)) }
{
    let spots = spots_of(alloc, index)?;
    ends_of(alloc, &TypeSteps { index }, spots.as_slice())
}
