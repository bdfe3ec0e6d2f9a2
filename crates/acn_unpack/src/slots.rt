//! Numbers of slots that are read.

ghost use Rattle.std.specs.Prelude.{◌≡◌, ◌≤◌, ◌<◌, ℕ, ℤ, Some, None, OnOk, IfErr, List, length, true};
ghost use Rattle.acn_grammar.specs.Env.{at_slot};
ghost use Rattle.acn_grammar.specs.Tree.{holds};
ghost use Rattle.acn_grammar.specs.declared.limits.TheConstants.{MOST_OPEN_SLOTS};
ghost use Rattle.acn_reads.specs.Decoded.{Within};
ghost use Rattle.acn_reads.specs.Steps.{noted_by};
ghost use Rattle.acn_reads.specs.declared.stop.Stop.TheVariants.{NoMemory};
ghost use Rattle.acn_unpack.specs.Keeps.{IsFree, IsFull};

use acn_open_slots::{SlotTable, a_place_is_free};
use acn_reads::Stop;

/// Notes the number of a slot that has none yet, where there is a slot. A table with a place for each slot that may be open has one for it.
pub fn note<T: SlotTable>(slots: &mut T, slot: Option<u32>, x: &i128) -> Result<(), Stop>
    requires free { (s : ℕ) → slot ≡ Some s → IsFree s (T.env slots.old) }
    ensures lack { IfErr result (IsFull T.places) }
    ensures noted { OnOk result (T.env slots.new ≡ noted_by slot x.now (T.env slots.old)) }
{
    match slot {
        Some(slot) => {
            a_place_is_free();
            slots.once();
            if slots.note(slot, x) {
                Ok(())
            } else {
                Err(Stop::NoMemory)
            }
        }
        None => Ok(()),
    }
}
