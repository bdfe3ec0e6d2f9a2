ghost use Rattle.std.specs.Prelude.{◌≡◌, IfOk, IfSome, IsSome, MatchOption};
ghost use Rattle.acn_index.specs.Views.{index_view};
ghost use Rattle.acn_index.specs.World as world;
ghost use Rattle.acn_world.specs.Cycles.{HasNoCycle, IsFirstCycle};
ghost use Rattle.acn_graph.specs.Graph.{HasNoRing, IsFirstRing};
ghost use Rattle.acn_cycles.specs.Numbers.{graph_of};

use crate::numbers::{places_at, starts_of};
use crate::rows::rows_in;
use acn_graph::{Ring, first_ring};
use acn_index::index::Index;
use acn_index::places::places;
use acn_num::{NoMemory, Row};
use acn_world::TypeId;
use std::alloc::Global;

/// A type or a value that reaches itself, and a way: the assignments that are passed, itself first.
#[derive(Drop)]
pub struct Round {
    /// The type or the value.
    pub first: TypeId,
    /// The way.
    pub way: Row<TypeId>,
}

// The first round of the graph.
fn ring_of(alloc: Global, index: &Index, places: &[TypeId]) -> Result<Option<Ring>, NoMemory>
    requires { places.now ≡ world.places (index_view index.now) }
    ensures { IfOk result (λ found. MatchOption found
        (HasNoRing (graph_of (index_view index.now)))
        (λ ring. IsFirstRing (graph_of (index_view index.now)) ring.first ring.way)) }
{
    let firsts = starts_of(alloc, index.modules.items())?;
    let rows = rows_in(alloc, index, firsts.as_slice(), places)?;
    first_ring(alloc, rows.as_slice())
}

/// The first type or value, in the order of the text, that reaches itself over references, with a way. None comes
/// exactly where none does. X.680 permits types that contain themselves; that none does is this profile's own.
pub fn first_cycle(alloc: Global, index: &Index) -> Result<Option<Round>, NoMemory>
    ensures exact { IfOk result (λ found. MatchOption found
        (HasNoCycle (index_view index.now))
        (λ round. IsFirstCycle (index_view index.now) round.first round.way)) }
    ensures there { IfOk result (λ found. IfSome found (λ round. IsSome (world.assignment (index_view index.now) round.first))) }
{
    let places = places(alloc, index)?;
    match ring_of(alloc, index, places.as_slice())? {
        None => Ok(None),
        Some(ring) => {
            let first = places[ring.first];
            let way = places_at(alloc, places.as_slice(), ring.way.items())?;
            Ok(Some(Round { first, way }))
        }
    }
}
