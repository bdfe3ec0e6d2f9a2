//! The nodes of paths.

use acn_num::Path;
use acn_tree::{Body, Field, Node, Tree};

fn field_node(field: &Field) -> &Node {
    match field {
        Field::Component { node, .. } => node,
        Field::Inserted { node, .. } => node,
    }
}

// The node to which a step leads; each step into a list or a content leads to its one node.
fn inside(node: &Node, step: u32) -> Option<&Node> {
    match &node.body {
        Body::Seq(seq) => Some(field_node(seq.fields.items().get(step as usize)?)),
        Body::Choice(choice) => Some(&choice.alternatives.items().get(step as usize)?.node),
        Body::List(_, element) => Some(element.get()),
        Body::Contained(_, content) => Some(content.get()),
        _ => None,
    }
}

/// The node of a path of a value or a packet, in which the step into a list is the number of the
/// element.
pub fn node_on<'t>(tree: &'t Tree, path: &Path) -> Option<&'t Node> {
    let mut node = tree.root();
    for step in path.steps() {
        match inside(node, *step) {
            Some(next) => node = next,
            None => return None,
        }
    }
    Some(node)
}
