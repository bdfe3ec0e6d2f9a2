//! The two bounds of a tree and of its nodes.

ghost use Rattle.std.specs.Prelude.{◌≡◌, ◌≤◌, option_map, IfSome};
ghost use Rattle.acn_grammar.specs.Interval.{span};
ghost use Rattle.acn_grammar.specs.Paths.{node_at as node_of_path};
ghost use Rattle.acn_grammar.specs.View.{grammar_of};
ghost use Rattle.acn_grammar.specs.declared.limits.TheConstants.{MOST_PACKET_BITS};
ghost use Rattle.acn_bounds.specs.Between.{SpellingsLieBetween, NodeLiesBetween};

use acn_check::Checked;
use acn_num::Path;
use acn_packet_laws::{
    bounds_hold, each_length_is_told, each_path_has_its_number, no_fault_without_a_first,
    values_lie_within_bounds,
};
use acn_tree::{Bounds, interval, node_at, node_interval};

/// The least and the greatest number of bits that a packet of an accepted tree has, with no padding behind it. Every packet that is
/// written or read lies between the two, which need not be reached. It takes no memory. (This profile's own.)
pub fn bounds(checked: &Checked) -> Bounds
    ensures exact { result ≡ span (grammar_of checked.now.tree.root) }
    ensures between { SpellingsLieBetween (grammar_of checked.now.tree.root) result }
    ensures short { result.greatest ≤ MOST_PACKET_BITS }
{
    bounds_hold();
    no_fault_without_a_first();
    interval(checked.tree())
}

/// The same of the node at a path, the padding before it included, for each value that meets the node, wherever it begins and whatever
/// the numbers of slots are. None comes exactly where no node has that path. Sums and products are held down to 2^40, as those of
/// `node_interval`; where the greatest bound is above `MOST_PACKET_BITS`, `between` says nothing. It takes no memory. (This
/// profile's own.)
pub fn bounds_at(checked: &Checked, path: &Path) -> Option<Bounds>
    ensures exact { result ≡ option_map span (node_of_path (grammar_of checked.now.tree.root) path.now) }
    ensures between { IfSome result (NodeLiesBetween (grammar_of checked.now.tree.root) path.now) }
{
    each_length_is_told();
    each_path_has_its_number();
    values_lie_within_bounds();
    match node_at(checked.tree(), path) {
        Some(node) => Some(node_interval(node)),
        None => None,
    }
}
