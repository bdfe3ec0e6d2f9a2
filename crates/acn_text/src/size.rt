ghost use Rattle.std.specs.Prelude.{◌≡◌, ◌≤◌, IsTrue, IfOk, IfErr, OnErr, pos};
ghost use Rattle.acn_num.specs.Ranges.{In};
ghost use Rattle.acn_num.specs.declared.limits.TheConstants.{MOST_SIZE};
ghost use Rattle.acn_bits.specs.Reading.{Reads, Stays};
ghost use Rattle.acn_grammar.specs.Leaves.{sizing_fine};
ghost use Rattle.acn_grammar.specs.ReadFaults.{reason_of};
ghost use Rattle.acn_text.specs.Texts.{IsGiven, SizeCode};
ghost use Rattle.acn_text.specs.Steps.{NoSizeAt};

use crate::sized::read_size;
use acn_bits::ReadCursor;
use acn_grammar::{ReadFault, Sizing};

/// Reads the size of a string or list, and moves the cursor over exactly its code.
///
/// `given` is the size where a slot says it, and `None` elsewhere.
///
/// The fault is `Short` where the size in front isn't whole, and else `SizeOutOfRange`. The call takes no memory.
#[tactic(auto, using(crate::proofs::SizedReads::size_read, crate::proofs::Fine::sizing_fits, crate::proofs::Fine::sizing_few))]
pub fn read_sizing(
    cur: &mut ReadCursor<'_>,
    sizing: &Sizing,
    given: Option<u64>,
) -> Result<u64, ReadFault>
    requires fine { IsTrue (sizing_fine sizing.now) }
    requires given { IsGiven sizing.now.rule given }
    ensures permitted { IfOk result (λ n. In sizing.now.sizes (pos n)) }
    ensures few { IfOk result (λ n. n ≤ MOST_SIZE) }
    ensures read { IfOk result (λ n. Reads (SizeCode sizing.now given n) cur.old cur.new) }
    ensures fails { IfErr result (λ e. NoSizeAt sizing.now given cur.old.rest (reason_of e)) }
    ensures stays { OnErr result (Stays cur.old cur.new) }
{
    match read_size(cur, sizing, given) {
        Ok(n) => Ok(n),
        Err(fault) => Err(fault),
    }
}
