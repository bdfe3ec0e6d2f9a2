//! Rings of graphs.

use acn_case_lines::word;
use acn_graph::first_ring;
use acn_num::{NoMemory, Row};
use std::alloc::Global;

// The number of a word as a place, or none.
fn place(word: &str) -> Option<usize> {
    word.parse::<usize>().ok()
}

// The nodes to which the steps of these words lead from a node, as `0-1`.
fn row_of(alloc: Global, node: usize, steps: &[&str]) -> Result<Row<usize>, NoMemory> {
    let mut row = Row::new(alloc);
    for step in steps {
        if let Some((from, to)) = step.split_once("-") {
            if place(from) == Some(node) {
                row.push(place(to).unwrap_or(usize::MAX))?;
            }
        }
    }
    Ok(row)
}

fn graph_of(alloc: Global, count: usize, steps: &[&str]) -> Result<Vec<Row<usize>>, NoMemory> {
    let mut rows = Vec::new(alloc);
    for node in 0..count {
        rows.push(row_of(alloc, node, steps)?)?;
    }
    Ok(rows)
}

// The nodes behind a node, up to this many and up to the last.
fn ahead_of(alloc: Global, node: usize, width: usize, last: usize) -> Result<Row<usize>, NoMemory> {
    let mut row = Row::new(alloc);
    for ahead in 0..width {
        let to = node.saturating_add(ahead).saturating_add(1);
        if to <= last {
            row.push(to)?;
        }
    }
    Ok(row)
}

// Each of so many nodes leads to some of those behind it, and the last node to the end.
fn chain_of(
    alloc: Global,
    count: usize,
    width: usize,
    end: Option<usize>,
) -> Result<Vec<Row<usize>>, NoMemory> {
    let mut rows = Vec::new(alloc);
    for node in 0..count {
        rows.push(ahead_of(alloc, node, width, count)?)?;
    }
    let mut last = Row::new(alloc);
    if let Some(end) = end {
        last.push(end)?;
    }
    rows.push(last)?;
    Ok(rows)
}

// The nodes of a way, or how many there are where there are more than twenty.
fn way_in_words(alloc: Global, way: &[usize]) -> Result<String, NoMemory> {
    if way.len() > 20 {
        return Ok(format!(in alloc; "{} nodes", way.len())?);
    }
    let mut words = String::new(alloc);
    for node in way {
        let space = if words.is_empty() { "" } else { " " };
        write!(words, "{space}{node}")?;
    }
    Ok(words)
}

fn ring_in_words(alloc: Global, rows: &[Row<usize>]) -> Result<String, NoMemory> {
    match first_ring(alloc, rows)? {
        Some(ring) => way_in_words(alloc, ring.way.items()),
        None => Ok("none".to_string(alloc)?),
    }
}

/// The way of the first ring of the graph with the first word's count of nodes and the steps of the other words.
pub fn ring_told(alloc: Global, words: &[&str]) -> Result<String, NoMemory> {
    let count = place(word(words, 0)).unwrap_or(0);
    let rows = graph_of(alloc, count, words.get(1..).unwrap_or(&[]))?;
    ring_in_words(alloc, rows.as_slice())
}

/// The same of a chain: its count of nodes, to how many of those behind it each leads, and where the last one leads.
pub fn long_ring_told(alloc: Global, words: &[&str]) -> Result<String, NoMemory> {
    let count = place(word(words, 0)).unwrap_or(0);
    let width = place(word(words, 1)).unwrap_or(0);
    let rows = chain_of(alloc, count, width, place(word(words, 2)))?;
    ring_in_words(alloc, rows.as_slice())
}
