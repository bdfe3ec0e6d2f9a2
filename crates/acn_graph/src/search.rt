ghost use Rattle.std.specs.Prelude.{◌≡◌, ℕ, ◌<◌, List, length, get_or, reverse, IfOk, OnOk, MatchOption};
ghost use Rattle.acn_graph.specs.Graph.{Among, Graph, Leads, onward};
ghost use Rattle.acn_graph.specs.Search as spec;

use crate::rows::{holds, targets};
use acn_num::{NoMemory, Row};
use std::alloc::Global;

// The nodes that are reached from a start, in order; for each the place of the one from which it was reached; and
// for each node of the graph whether it was reached.
#[derive(Drop)]
struct Search {
    order: Vec<usize>,
    parents: Vec<usize>,
    reached: Vec<bool>,
}

// The start alone.
fn begin(alloc: Global, count: usize, start: usize) -> Result<Search, NoMemory>
    requires { start < count }
    ensures { IfOk result (λ s. spec.searched s ≡ spec.begun count start) }
{
    let mut reached = vec![in alloc; false; count]?;
    reached[start] = true;
    let mut order = Vec::new(alloc);
    order.push(start)?;
    let mut parents = Vec::new(alloc);
    parents.push(0)?;
    Ok(Search {
        order,
        parents,
        reached,
    })
}

// One node more, if it wasn't reached before.
#[tactic(auto, unfolding(crate::specs::Search::grow))]
fn reach(search: &mut Search, at: usize, node: usize) -> Result<(), NoMemory>
    ensures { OnOk result (spec.searched search.new ≡ spec.grow at node (spec.searched search.old)) }
{
    if node >= search.reached.len() {
        return Ok(());
    }
    if search.reached[node] {
        return Ok(());
    }
    search.reached[node] = true;
    search.order.push(node)?;
    search.parents.push(at)?;
    Ok(())
}

// Those of these nodes that weren't reached before.
fn reach_all(search: &mut Search, at: usize, nodes: &[usize]) -> Result<(), NoMemory>
    ensures { OnOk result (spec.searched search.new ≡ spec.grow_all at nodes.now (spec.searched search.old)) }
{
    for node in nodes {
        reach(search, at, *node)?;
    }
    Ok(())
}

// The way from the start to itself over the node at a place, which leads to the start.
fn way_back(
    alloc: Global,
    order: &[usize],
    parents: &[usize],
    at: usize,
) -> Result<Row<usize>, NoMemory>
    requires there { at < length order.now }
    requires same { length parents.now ≡ length order.now }
    requires ordered { spec.IsOrdered parents.now }
    ensures { IfOk result (λ way. (g : Graph) → spec.IsTrail g order.now parents.now
        → Among (get_or order.now 0 0) (onward g (get_or order.now at 0))
        → Leads g (get_or order.now 0 0) (get_or order.now 0 0) way) }
{
    let mut way = Vec::new(alloc);
    let mut place = at;
    way.push(order[place])?;
    while place > 0 {
        place = parents[place];
        way.push(order[place])?;
    }
    way.reverse();
    Ok(Row::from_vec(way))
}

/// A way from a node to itself. None comes exactly where there is none.
pub fn round_of(
    alloc: Global,
    graph: &[Row<usize>],
    start: usize,
) -> Result<Option<Row<usize>>, NoMemory>
    requires { start < length graph.now }
    ensures { IfOk result (λ found. MatchOption found
        ((way : List ℕ) → Leads graph.now start start way → ⊥)
        (λ way. Leads graph.now start start way)) }
{
    let mut search = begin(alloc, graph.len(), start)?;
    for at in 0..graph.len() {
        if at >= search.order.len() {
            return Ok(None);
        }
        let nodes = targets(graph, search.order[at]);
        if holds(nodes, start) {
            let way = way_back(
                alloc,
                search.order.as_slice(),
                search.parents.as_slice(),
                at,
            )?;
            return Ok(Some(way));
        }
        reach_all(&mut search, at, nodes)?;
    }
    Ok(None)
}
