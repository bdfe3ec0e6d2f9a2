ghost use Rattle.std.specs.Prelude.{◌≡◌, nat_eq};
ghost use Rattle.std.specs.List.{list_any};
ghost use Rattle.acn_graph.specs.Graph.{onward};

use acn_num::Row;

/// Where a node leads; nowhere where there is no such node.
pub fn targets(graph: &[Row<usize>], node: usize) -> &[usize]
    ensures { result.now ≡ onward graph.now node }
{
    match graph.get(node) {
        None => &[],
        Some(row) => row.items(),
    }
}

/// Whether a node is one of these.
pub fn holds(nodes: &[usize], node: usize) -> bool
    ensures { result ≡ list_any (nat_eq node) nodes.now }
{
    for other in nodes {
        if node == *other {
            return true;
        }
    }
    false
}
