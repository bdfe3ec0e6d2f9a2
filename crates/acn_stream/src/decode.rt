//! Decoding: packets of an input become lines of an output.

ghost use Rattle.std.specs.Prelude.{◌≡◌, ◌↔◌, ◌≤◌, IsErrOf};
ghost use Rattle.acn_grammar.specs.Interval.{span};
ghost use Rattle.acn_grammar.specs.View.{grammar_of};
ghost use Rattle.acn_outside.specs.Counts.{Rose, Stays};
ghost use Rattle.acn_plan.specs.Steps.{steps_of};
ghost use Rattle.acn_stream.specs.Decoding.{DecodeEnds};

use crate::json_lines::JsonLines;
use crate::showing::show_all;
use crate::stream_fault::StreamFault;
use acn_bounds::bounds;
use acn_check::Checked;
use acn_lines::Lines;
use acn_outside::{Sink, Source};
use acn_plan::Plan;
use std::alloc::Global;

/// Reads packets until the input ends and writes the line of each with a line feed, and answers how many packets there were. In a
/// recording fewer than 8 fill bits, whichever they are, stand behind each packet up to an octet. At most `limit` bytes are read,
/// and one more to see whether the input ends there.
///
/// What all lines of the tree need is made once, before anything is read. Lines are written in blocks, and before each read. The input
/// is read only where what is in hand ends inside a packet, or at its end, and at most `MOST_IN_HAND` bytes are in hand.
///
/// `EmptyPacket` comes exactly where the least bound is 0; then nothing is read. `Packet` names the first packet that can't be read,
/// with the one failure that there is. `InputTooLong` comes where the bytes up to the limit end inside a packet, or at its end, and
/// one byte more came. `InputFault` and `OutputFault` come only where that count of faults rose, and without them it stays;
/// `NoMemory` comes where memory runs out. With each of these the output gained the lines of the packets before, with `OutputFault` a
/// front of them. (Recordings are this profile's own.)
pub fn decode_all<S: Source, O: Sink>(
    alloc: Global,
    checked: &Checked,
    plan: &Plan,
    input: &mut S,
    out: &mut O,
    limit: u64,
) -> Result<u64, StreamFault>
    requires planned { steps_of (grammar_of checked.now.tree.root) ≡ plan.now.steps }
    ensures ends { DecodeEnds (grammar_of checked.now.tree.root) limit (S.rest input.old) (S.rest input.new) (O.taken out.old) (O.taken out.new) result }
    ensures empty { IsErrOf result StreamFault.EmptyPacket ↔ ((span (grammar_of checked.now.tree.root)).least ≡ 0) }
    ensures input_fault { IsErrOf result StreamFault.InputFault → Rose (S.faults input.old) (S.faults input.new) }
    ensures output_fault { IsErrOf result StreamFault.OutputFault → Rose (O.faults out.old) (O.faults out.new) }
    ensures input_stays { (IsErrOf result StreamFault.InputFault → ⊥) → Stays (S.faults input.old) (S.faults input.new) }
    ensures output_stays { (IsErrOf result StreamFault.OutputFault → ⊥) → Stays (O.faults out.old) (O.faults out.new) }
    ensures input { S.faults input.old ≤ S.faults input.new }
    ensures output { O.faults out.old ≤ O.faults out.new }
{
    if bounds(checked).least == 0 {
        return Err(StreamFault::EmptyPacket);
    }
    let tree = checked.tree();
    match Lines::new(alloc, tree) {
        Ok(order) => {
            let shower = JsonLines {
                tree,
                order: &order,
            };
            show_all(alloc, checked, plan, &shower, input, out, limit)
        }
        Err(_) => Err(StreamFault::NoMemory),
    }
}
