//! Reading.

ghost use Rattle.std.specs.Prelude.{◌≤◌, length, IfOk, IfErr};
ghost use Rattle.acn_num.specs.Bits.{bits};
ghost use Rattle.acn_grammar.specs.Front.{Front};
ghost use Rattle.acn_grammar.specs.ItemsNamed.{ItemsNamed};
ghost use Rattle.acn_grammar.specs.View.{grammar_of, data_of};
ghost use Rattle.acn_reads.specs.declared.answers.TheConstants.{MOST_BYTES};
ghost use Rattle.acn_reads.specs.Answers.{OnlyFault, OnlyFront, Refuses};

use acn_check::Checked;
use acn_plain_read::read_packet;
use acn_tree::{Refuse, Value};
use std::alloc::Global;

/// Reads the value at the front of the bytes, and answers it with the number of its bits. What stands behind them isn't looked at.
///
/// The items of the tree's enumerations have numbers of 32 bits, as `items_named` of `acn_tree` tells.
///
/// `Bad` comes exactly where no value is at the front, with the one failure that there is: the path of its node, the reason, and
/// the bit at which that node begins. `NoMemory` comes where memory runs out. The order of reasons is this profile's own.
pub fn plain_decode(alloc: Global, checked: &Checked, bytes: &[u8]) -> Result<(Value, u64), Refuse>
    requires named { ItemsNamed (grammar_of checked.now.tree.root) }
    requires few { length bytes.now ≤ MOST_BYTES }
    ensures front { IfOk result (λ pair. Front (grammar_of checked.now.tree.root) (bits bytes.now) (data_of pair.0) pair.1) }
    ensures alone { IfOk result (λ pair. OnlyFront (grammar_of checked.now.tree.root) (bits bytes.now) (data_of pair.0) pair.1) }
    ensures fault { IfErr result (Refuses (grammar_of checked.now.tree.root) (bits bytes.now)) }
    ensures only { IfErr result (OnlyFault (grammar_of checked.now.tree.root) (bits bytes.now)) }
{
    read_packet(alloc, checked.tree().root(), bytes)
}
