ghost use Rattle.std.specs.Prelude.{◌≡◌};
ghost use Rattle.acn_packet_laws.specs.Laws.{IsAccepted};
ghost use Rattle.acn_grammar.specs.View.{grammar_of};
ghost use Rattle.acn_check.specs.Checked.{HasNoFault};

use acn_tree::Tree;

/// A tree whose packets can be decoded: none of the thirteen faults of decodability holds of it.
#[derive(Drop)]
pub struct Checked {
    tree: Tree,

    ghost sound: { HasNoFault (grammar_of tree.root) },
}

impl Checked {
    // A tree without a fault.
    pub(crate) fn of(tree: Tree) -> Checked
        requires { HasNoFault (grammar_of tree.root) }
        ensures { result.tree ≡ tree }
    {
        Checked { tree }
    }

    /// The tree, which is well formed and has no fault of decodability.
    pub fn tree(&self) -> &Tree
        ensures same { result.now ≡ self.now.tree }
        ensures accepted { IsAccepted (grammar_of result.now.root) }
    {
        &self.tree
    }
}
