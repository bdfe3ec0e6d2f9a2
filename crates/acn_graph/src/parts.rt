ghost use Rattle.std.specs.Prelude.{◌≡◌, ◌+◌, ◌<◌, get_or};
ghost use Rattle.acn_graph.specs.Graph as spec;

use crate::rows::targets;
use acn_num::{NoMemory, Row};
use std::alloc::Global;

// A node on the way of a walk, and the place of the next of its targets.
#[derive(Clone, Copy)]
struct Stop {
    node: usize,
    next: usize,
}

// A walk through a graph, depth first, that tells its parts: nodes that lead to each other are in one part (Tarjan's
// walk). `reached` says when each node was reached, from 1 on, and `lowest` what was reached first among the open
// nodes to which a way leads through it. `numbers` counts the parts from 1 on, in the order in which the walk is done
// with them. `open` are the nodes that have no part yet, and `stops` is where the walk stands.
#[derive(Drop)]
struct Walk {
    reached: Vec<usize>,
    lowest: Vec<usize>,
    numbers: Vec<usize>,
    open: Vec<usize>,
    stops: Vec<Stop>,
    clock: usize,
    count: usize,
}

// The number of a node; 0 where it has none.
fn number_of(numbers: &[usize], node: usize) -> usize
    ensures { result ≡ get_or numbers.now node 0 }
{
    match numbers.get(node) {
        None => 0,
        Some(number) => *number,
    }
}

// Gives a node a number.
fn put(numbers: &mut Vec<usize>, node: usize, number: usize) {
    if node < numbers.len() {
        numbers[node] = number;
    }
}

// Goes to a node for the first time.
fn enter(walk: &mut Walk, node: usize) -> Result<(), NoMemory> {
    walk.clock = walk.clock.saturating_add(1);
    let clock = walk.clock;
    put(&mut walk.reached, node, clock);
    put(&mut walk.lowest, node, clock);
    walk.open.push(node)?;
    walk.stops.push(Stop { node, next: 0 })?;
    Ok(())
}

// A way leads from a node to an open one that was reached at this time.
fn lower(walk: &mut Walk, node: usize, time: usize) {
    if time < number_of(walk.lowest.as_slice(), node) {
        put(&mut walk.lowest, node, time);
    }
}

// Looks at a target of a node.
fn visit(walk: &mut Walk, from: usize, node: usize) -> Result<(), NoMemory> {
    if node >= walk.reached.len() {
        return Ok(());
    }
    let time = number_of(walk.reached.as_slice(), node);
    if time == 0 {
        return enter(walk, node);
    }
    if number_of(walk.numbers.as_slice(), node) == 0 {
        lower(walk, from, time);
    }
    Ok(())
}

// The open nodes from this one on are a part.
fn close(walk: &mut Walk, first: usize) {
    walk.count = walk.count.saturating_add(1);
    let count = walk.count;
    for _ in 0..u64::MAX {
        match walk.open.pop() {
            None => return,
            Some(node) => {
                put(&mut walk.numbers, node, count);
                if node == first {
                    return;
                }
            }
        }
    }
}

// The node on which the walk stands.
fn standing(walk: &Walk) -> Option<usize> {
    match walk.stops.last() {
        None => None,
        Some(stop) => Some(stop.node),
    }
}

// Goes back from a node.
fn leave(walk: &mut Walk, node: usize) {
    let time = number_of(walk.lowest.as_slice(), node);
    if time == number_of(walk.reached.as_slice(), node) {
        close(walk, node);
    }
    match standing(walk) {
        None => {}
        Some(parent) => lower(walk, parent, time),
    }
}

// One step: to the next target of the last stop, or back.
fn step(walk: &mut Walk, graph: &[Row<usize>], stop: Stop) -> Result<(), NoMemory> {
    match targets(graph, stop.node).get(stop.next) {
        None => {
            leave(walk, stop.node);
            Ok(())
        }
        Some(target) => {
            walk.stops.push(Stop {
                node: stop.node,
                next: stop.next.saturating_add(1),
            })?;
            visit(walk, stop.node, *target)
        }
    }
}

// Walks from a node until it stands nowhere.
fn walk_from(walk: &mut Walk, graph: &[Row<usize>], node: usize) -> Result<(), NoMemory> {
    visit(walk, node, node)?;
    for _ in 0..u64::MAX {
        match walk.stops.pop() {
            None => return Ok(()),
            Some(stop) => step(walk, graph, stop)?,
        }
    }
    Ok(())
}

/// The number of the part of each node. No step leads to a part with a greater number. Nothing rests on this: whether
/// it is so is tested.
pub fn parts_of(alloc: Global, graph: &[Row<usize>]) -> Result<Vec<usize>, NoMemory> {
    let mut walk = Walk {
        reached: vec![in alloc; 0; graph.len()]?,
        lowest: vec![in alloc; 0; graph.len()]?,
        numbers: vec![in alloc; 0; graph.len()]?,
        open: Vec::new(alloc),
        stops: Vec::new(alloc),
        clock: 0,
        count: 0,
    };
    for node in 0..graph.len() {
        walk_from(&mut walk, graph, node)?;
    }
    Ok(walk.numbers)
}

// Whether each of the nodes has a number below this one.
fn are_below(numbers: &[usize], number: usize, nodes: &[usize]) -> bool
    ensures { result ≡ spec.are_below numbers.now number nodes.now }
{
    for node in nodes {
        if number_of(numbers, *node) >= number {
            return false;
        }
    }
    true
}

// Whether none of the nodes has a number above this one.
fn none_above(numbers: &[usize], number: usize, nodes: &[usize]) -> bool
    ensures { result ≡ spec.are_below numbers.now (number + 1) nodes.now }
{
    for node in nodes {
        if number_of(numbers, *node) > number {
            return false;
        }
    }
    true
}

/// Whether a node leads to lower numbers alone.
pub fn leads_down(numbers: &[usize], graph: &[Row<usize>], node: usize) -> bool
    ensures { result ≡ spec.are_below numbers.now (get_or numbers.now node 0) (spec.onward graph.now node) }
{
    are_below(numbers, number_of(numbers, node), targets(graph, node))
}

/// Whether no node leads to a greater number.
pub fn never_rise(numbers: &[usize], graph: &[Row<usize>]) -> bool
    ensures { result ≡ spec.never_rise numbers.now 0 graph.now }
{
    for (n, nodes) in graph.iter().enumerate() {
        if !none_above(numbers, number_of(numbers, n), nodes.items()) {
            return false;
        }
    }
    true
}
