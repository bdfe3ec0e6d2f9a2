//! The walk over a packet, from the root on.

ghost use Rattle.std.specs.Prelude.{◌≡◌, ◌≤◌, ◌<◌, ◌*◌, ℕ, List, [], false, true, length, IfOk, IfErr};
ghost use Rattle.acn_num.specs.Bits.{bits};
ghost use Rattle.acn_grammar.specs.Fails.{Refusal};
ghost use Rattle.acn_grammar.specs.Front.{Front};
ghost use Rattle.acn_grammar.specs.Grammar.{Data};
ghost use Rattle.acn_plan.specs.Back.{root_of};
ghost use Rattle.acn_plan.specs.Made.{IsMade};
ghost use Rattle.acn_reads.specs.declared.answers.TheConstants.{MOST_BYTES};
ghost use Rattle.acn_unpack.specs.Keeps.{Halts, MayLack};

use crate::keep::Keep;
use crate::read::read_node;
use acn_bits::ReadCursor;
use acn_num::Path;
use acn_open_slots::{AllSlots, FewSlots, SlotTable};
use acn_packet_laws::accepted_is_sound;
use acn_plan::Step;
use acn_reads::Stop;

// What is kept of the packet at the front of the bytes, and the number of its bits. The path is that of the node that fails.
fn read_root<K: Keep, T: SlotTable>(
    keep: &K,
    steps: &[Step],
    bytes: &[u8],
    slots: &mut T,
    path: &mut Path,
) -> Result<(K::Kept, u64), Stop>
    requires made { IsMade steps.now }
    requires few { length bytes.now ≤ MOST_BYTES }
    requires none { T.env slots.old ≡ [] }
    requires top { path.old ≡ [] }
    ensures front { IfOk result (λ pair. (d : Data) × K.says pair.0 d × Front (root_of steps.now) (bits bytes.now) d pair.1) }
    ensures fails { IfErr result (λ e. Halts (MayLack K.takes T.places) e (λ r at. (reach : ℕ) × Refusal (root_of steps.now) (bits bytes.now) (record { path = path.new; reason = r; at = at }) reach)) }
{
    accepted_is_sound();
    let mut cur = ReadCursor::new(bytes, 8 * bytes.len() as u64);
    match read_node(keep, steps, 0, &mut cur, slots, path, false) {
        Ok(kept) => {
            let used = cur.at();
            Ok((kept, used))
        }
        Err(stop) => Err(stop),
    }
}

// The same with a place for each slot that may be open.
#[inline(never)]
fn read_again<K: Keep>(
    keep: &K,
    steps: &[Step],
    bytes: &[u8],
    path: &mut Path,
) -> Result<(K::Kept, u64), Stop>
    requires made { IsMade steps.now }
    requires few { length bytes.now ≤ MOST_BYTES }
    ensures front { IfOk result (λ pair. (d : Data) × K.says pair.0 d × Front (root_of steps.now) (bits bytes.now) d pair.1) }
    ensures fails { IfErr result (λ e. Halts (K.takes ≡ true) e (λ r at. (reach : ℕ) × Refusal (root_of steps.now) (bits bytes.now) (record { path = path.new; reason = r; at = at }) reach)) }
{
    *path = Path::new();
    let mut slots = AllSlots::new();
    match read_root(keep, steps, bytes, &mut slots, path) {
        Ok(pair) => Ok(pair),
        Err(stop) => Err(stop),
    }
}

/// What is kept of the packet at the front of the bytes, and the number of its bits; or why there is none, with the path of the node
/// that fails. A table of few slots serves most packets; where it doesn't, the walk is gone once more.
pub fn read_packet<K: Keep>(
    keep: &K,
    steps: &[Step],
    bytes: &[u8],
    path: &mut Path,
) -> Result<(K::Kept, u64), Stop>
    requires made { IsMade steps.now }
    requires few { length bytes.now ≤ MOST_BYTES }
    requires top { path.old ≡ [] }
    ensures front { IfOk result (λ pair. (d : Data) × K.says pair.0 d × Front (root_of steps.now) (bits bytes.now) d pair.1) }
    ensures fails { IfErr result (λ e. Halts (K.takes ≡ true) e (λ r at. (reach : ℕ) × Refusal (root_of steps.now) (bits bytes.now) (record { path = path.new; reason = r; at = at }) reach)) }
{
    let mut slots = FewSlots::new();
    match read_root(keep, steps, bytes, &mut slots, path) {
        Ok(pair) => Ok(pair),
        Err(Stop::Fails { reason, at }) => Err(Stop::Fails { reason, at }),
        Err(Stop::NoMemory) => read_again(keep, steps, bytes, path),
    }
}
