ghost use Rattle.std.specs.Prelude.{◌≡◌, ℕ, ◌<◌, List, length, IfOk, MatchOption};
ghost use Rattle.acn_graph.specs.Graph.{Leads, HasNoRing, IsFirstRing, never_rise};

use crate::parts::{leads_down, never_rise, parts_of};
use crate::search::round_of;
use acn_num::{NoMemory, Row};
use std::alloc::Global;

/// A node that leads to itself, and a way: the nodes that are passed, itself first.
#[derive(Drop)]
pub struct Ring {
    /// The node.
    pub first: usize,
    /// The way.
    pub way: Row<usize>,
}

// A way from a node to itself. Where numbers never rise along a step, none leads back from lower ones, and nothing is
// searched.
fn round_at(
    alloc: Global,
    graph: &[Row<usize>],
    numbers: &[usize],
    fall: bool,
    node: usize,
) -> Result<Option<Row<usize>>, NoMemory>
    requires node { node < length graph.now }
    requires fall { fall ≡ never_rise numbers.now 0 graph.now }
    ensures { IfOk result (λ found. MatchOption found
        ((way : List ℕ) → Leads graph.now node node way → ⊥)
        (λ way. Leads graph.now node node way)) }
{
    if !fall {
        return round_of(alloc, graph, node);
    }
    if leads_down(numbers, graph, node) {
        return Ok(None);
    }
    round_of(alloc, graph, node)
}

/// The first node that leads to itself, with a way. None comes exactly where none does.
pub fn first_ring(alloc: Global, graph: &[Row<usize>]) -> Result<Option<Ring>, NoMemory>
    ensures { IfOk result (λ found. MatchOption found (HasNoRing graph.now) (λ ring. IsFirstRing graph.now ring.first ring.way)) }
{
    let numbers = parts_of(alloc, graph)?;
    let fall = never_rise(numbers.as_slice(), graph);
    for first in 0..graph.len() {
        match round_at(alloc, graph, numbers.as_slice(), fall, first)? {
            None => {}
            Some(way) => return Ok(Some(Ring { first, way })),
        }
    }
    Ok(None)
}
