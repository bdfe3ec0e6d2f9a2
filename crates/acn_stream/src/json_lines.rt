//! The lines of values.

ghost use Rattle.std.specs.Prelude.{◌≡◌, ◌++◌, ◌∷◌, [], OnOk, OnErr};
ghost use Rattle.acn_grammar.specs.View.{grammar_of, data_of};
ghost use Rattle.acn_json.specs.Kept.{Kept};
ghost use Rattle.acn_json.specs.Lines.{line_of};
ghost use Rattle.acn_lines.specs.Order.{IsOrder};

use crate::shower::Show;
use acn_grammar::Value;
use acn_json::put_octet;
use acn_lines::Lines;
use acn_num::NoMemory;
use acn_transcode::{Draft, put_front};
use acn_tree::Tree;

/// The line of each value, with a line feed.
#[derive(Clone, Copy)]
pub struct JsonLines<'a> {
    pub tree: &'a Tree,
    pub order: &'a Lines,
}

impl Show for JsonLines<'_> {
    ghost grammar = { λ s. grammar_of s.tree.now.root };

    ghost holds = { λ s. IsOrder (grammar_of s.tree.now.root) s.order.now.order };

    ghost shown = { λ s number d piece. line_of (grammar_of s.tree.now.root) d ++ 10 ∷ [] };

    fn show(
        &self,
        _number: u64,
        value: &Value,
        _piece: &[u8],
        text: &mut Vec<u8>,
    ) -> Result<(), NoMemory> {
        self.order.put(self.tree, value, text)?;
        put_octet(b'\n', text)
    }

    fn show_front(
        &self,
        _number: u64,
        bytes: &[u8],
        draft: &mut Draft,
        text: &mut Vec<u8>,
    ) -> Option<u64> {
        put_front(self.tree.root(), self.order.root(), bytes, draft, text)
    }
}
