ghost use Rattle.std.specs.Prelude.{IfOk};
ghost use Rattle.acn_grammar.specs.View.{grammar_of};
ghost use Rattle.acn_warnings.specs.Packets.{TellsNone};

use acn_check::Checked;
use acn_extremes::{ExtremesFault, extremes};
use acn_num::NoMemory;
use std::alloc::Global;

/// Whether no value of the tree can be written. That some value can be is only told of trees in
/// which each determinant serves one use. (This program's own.)
pub fn has_no_packet(alloc: Global, checked: &Checked) -> Result<bool, NoMemory>
    ensures { IfOk result (TellsNone (grammar_of checked.now.tree.root)) }
{
    match extremes(alloc, checked) {
        Ok(Some(_)) => Ok(false),
        Ok(None) => Ok(true),
        Err(ExtremesFault::NotSingle { .. }) => Ok(false),
        Err(ExtremesFault::NoMemory) => Err(NoMemory),
    }
}
