//! What lines of a tree need beside it.

ghost use Rattle.std.specs.Prelude.{◌≡◌, ◌≤◌, ◌++◌, IfOk, IfSome, Ok, OnOk, OnErr, IsTrue, length};
ghost use Rattle.acn_grammar.specs.Shaped.{fits};
ghost use Rattle.acn_grammar.specs.View.{grammar_of, data_of};
ghost use Rattle.acn_json.specs.Answers.{Gives};
ghost use Rattle.acn_json.specs.Kept.{Kept};
ghost use Rattle.acn_json.specs.Lines.{line_of};
ghost use Rattle.acn_json.specs.Reads.{line_gives};
ghost use Rattle.acn_json.specs.declared.read.TheConstants.{MOST_JSON_BYTES};
ghost use Rattle.acn_lines.specs.Order.{IsOrder};

use crate::order::{Order, TreeOrder, order_of};
use crate::printed::printed_value;
use crate::put::put_node;
use crate::room::Room;
use crate::spare::Spare;
use crate::take::take_line;
use acn_grammar::Value;
use acn_json::{JsonFault, from_line};
use acn_num::NoMemory;
use acn_printed::has_text_names;
use acn_tree::Tree;
use std::alloc::Global;

/// What the lines of a tree need beside the tree, made once: for each SEQUENCE the order in which the members of its objects
/// are printed, and the texts of their keys.
#[derive(Drop)]
pub struct Lines {
    order: TreeOrder,
}

impl Lines {
    /// What is kept of the root.
    pub fn root(&self) -> &Order
        ensures { result.now ≡ self.now.order.nodes }
    {
        &self.order.nodes
    }

    /// The lines of a tree. It fails only where memory runs out.
    pub fn new(alloc: Global, tree: &Tree) -> Result<Lines, NoMemory>
        ensures { IfOk result (λ lines. IsOrder (grammar_of tree.now.root) lines.order) }
    {
        let nodes = order_of(alloc, tree.root())?;
        let text_names = has_text_names(tree.root());
        Ok(Lines {
            order: TreeOrder { nodes, text_names },
        })
    }

    /// Puts the line of a value at the end of a buffer, without the line's end: the text that `to_line` of `acn_json` gives.
    /// It fails only where memory runs out; what stood in the buffer then still stands in front.
    pub fn put(&self, tree: &Tree, value: &Value, line: &mut Vec<u8>) -> Result<(), NoMemory>
        requires { IsOrder (grammar_of tree.now.root) self.now.order }
        ensures added { OnOk result (line.new.items ≡ line.old.items ++ line_of (grammar_of tree.now.root) (data_of value.now)) }
        ensures kept { OnErr result (Kept line.old.items line.new.items) }
    {
        put_node(tree.root(), &self.order.nodes, value, line)
    }

    /// The value that a line of JSON gives to the tree, or its first fault: the answer of `from_line` of `acn_json`. A line that
    /// `put` would put is read the fastest: it is read as it was printed, and not parsed. Of any other line it costs little more
    /// if its members come in another order, and a fault costs a second walk.
    pub fn take(
        &self,
        alloc: Global,
        tree: &Tree,
        room: &mut Room,
        line: &[u8],
    ) -> Result<Value, JsonFault>
        requires order { IsOrder (grammar_of tree.now.root) self.now.order }
        requires few { length line.now ≤ MOST_JSON_BYTES }
        ensures gives { Gives data_of result (line_gives (grammar_of tree.now.root) line.now) }
        ensures shaped { IfOk result (λ v. IsTrue (fits (grammar_of tree.now.root) (data_of v))) }
    {
        match self.seen(alloc, tree, room, line) {
            Some(value) => Ok(value),
            None => from_line(alloc, tree, line),
        }
    }

    /// The value that a line of JSON gives to the tree, where it is seen without a doubt: as it was printed, or by its tokens. None
    /// says nothing of the line; `take` answers for each.
    pub fn seen(&self, alloc: Global, tree: &Tree, room: &mut Room, line: &[u8]) -> Option<Value>
        requires { IsOrder (grammar_of tree.now.root) self.now.order }
        ensures gives { IfSome result (λ v. Ok (data_of v) ≡ line_gives (grammar_of tree.now.root) line.now) }
        ensures shaped { IfSome result (λ v. IsTrue (fits (grammar_of tree.now.root) (data_of v))) }
    {
        if let Some(value) = self.printed(tree, &mut room.spare, line) {
            return Some(value);
        }
        let value = take_line(alloc, tree, &self.order.nodes, room, line)?;
        Some(value)
    }

    // The value of a line that was printed.
    fn printed(&self, tree: &Tree, spare: &mut Spare, line: &[u8]) -> Option<Value>
        requires { IsOrder (grammar_of tree.now.root) self.now.order }
        ensures gives { IfSome result (λ v. Ok (data_of v) ≡ line_gives (grammar_of tree.now.root) line.now) }
        ensures shaped { IfSome result (λ v. IsTrue (fits (grammar_of tree.now.root) (data_of v))) }
    {
        if self.order.text_names {
            printed_value(tree, &self.order.nodes, spare, line)
        } else {
            None
        }
    }
}
