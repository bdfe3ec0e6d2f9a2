//! The value of a line that was printed.

ghost use Rattle.std.specs.Prelude.{◌≡◌, IfSome, IsTrue, Ok};
ghost use Rattle.acn_grammar.specs.Shaped.{fits};
ghost use Rattle.acn_grammar.specs.View.{grammar_of, data_of};
ghost use Rattle.acn_json.specs.Reads.{line_gives};
ghost use Rattle.acn_json.specs.RoundTrip.{HasTextNames};
ghost use Rattle.acn_lines.specs.Order.{IsNodeOrder};

use crate::order::Order;
use crate::read::{may_be_printed, read_node};
use crate::spare::Spare;
use acn_grammar::Value;
use acn_json::lines_give_the_value;
use acn_printed::Rest;
use acn_tree::Tree;

/// The value of a line, if it was printed for one: members in the order of `put`, and nothing that isn't needed.
pub fn printed_value(tree: &Tree, order: &Order, spare: &mut Spare, line: &[u8]) -> Option<Value>
    requires order { IsNodeOrder (grammar_of tree.now.root) order.now }
    requires names { HasTextNames (grammar_of tree.now.root) }
    ensures gives { IfSome result (λ v. Ok (data_of v) ≡ line_gives (grammar_of tree.now.root) line.now) }
    ensures shaped { IfSome result (λ v. IsTrue (fits (grammar_of tree.now.root) (data_of v))) }
{
    lines_give_the_value();
    let root = tree.root();
    if !may_be_printed(root, order, line) {
        return None;
    }
    let mut rest = Rest { text: line };
    let mut value = spare.old(line.len());
    let read = read_node(root, order, &mut value, spare, &mut rest);
    if read && rest.text.is_empty() {
        Some(value)
    } else {
        None
    }
}
