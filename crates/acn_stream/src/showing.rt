//! Showing: packets of an input become texts of an output.

ghost use Rattle.std.specs.Prelude.{◌≡◌, ◌↔◌, ◌+◌, ◌^◌, ◌<◌, ◌≤◌, ℕ, List, [], length, Option, Some, Err, IfSome, IsErrOf};
ghost use Rattle.acn_grammar.specs.Grammar.{Grammar};
ghost use Rattle.acn_grammar.specs.Interval.{span};
ghost use Rattle.acn_grammar.specs.View.{grammar_of};
ghost use Rattle.acn_outside.specs.Counts.{Rose, Stays};
ghost use Rattle.acn_plan.specs.Steps.{steps_of};
ghost use Rattle.acn_stream.specs.Decoding.{ShowEnds};
ghost use Rattle.acn_stream.specs.Recording.{Shown, texts};
ghost use Rattle.acn_stream.specs.Steps as spec;
ghost use Rattle.acn_stream.specs.Steps.{IsBounded};
ghost use Rattle.acn_supply.specs.declared.window.TheConstants.{MOST_IN_HAND};

use crate::packets::{Pause, take_packets};
use crate::shower::Show;
use crate::stream_fault::StreamFault;
use acn_bounds::bounds;
use acn_check::Checked;
use acn_grammar::Fault;
use acn_outside::{Sink, Source, write_all};
use acn_plan::Plan;
use acn_supply::{More, Supply};
use acn_transcode::Draft;
use std::alloc::Global;

// What the end of the input says of what is in hand: nothing, or a packet that isn't whole.
fn at_end(count: u64, wanting: Option<Fault>) -> Result<u64, StreamFault>
    requires room { IfSome wanting (λ fault. count + 1 < 2 ^ 64) }
    ensures { result ≡ spec.end_of count wanting }
{
    match wanting {
        None => Ok(count),
        Some(fault) => Err(StreamFault::Packet {
            number: count + 1,
            fault,
        }),
    }
}

// Reads once, where what is in hand ends inside a packet, or nothing is. An answer says that it ended.
fn read_on<S: Source>(
    supply: &mut Supply,
    input: &mut S,
    count: u64,
    wanting: Option<Fault>,
) -> Option<Result<u64, StreamFault>>
    requires few { length supply.old.hand < MOST_IN_HAND }
    requires room { IfSome wanting (λ fault. count + 1 < 2 ^ 64) }
    ensures goes_on { (g : Grammar) (shown : Shown) (limit : ℕ) (i o o' : Option (List ℕ)) → spec.SoFar g shown limit i (S.rest input.old) o o' supply.old count → spec.Pauses g supply.old.hand (Pause.Wants wanting) → spec.GoesOn g shown limit i (S.rest input.new) o o' supply.old supply.new count result }
    ensures count { S.faults input.old ≤ S.faults input.new }
    ensures known { spec.EndsReading result }
    ensures failed { result ≡ Some (Err StreamFault.InputFault) → Rose (S.faults input.old) (S.faults input.new) }
    ensures stays { (result ≡ Some (Err StreamFault.InputFault) → ⊥) → Stays (S.faults input.old) (S.faults input.new) }
{
    match supply.more(input) {
        Ok(More::Bytes) => None,
        Ok(More::End) => Some(at_end(count, wanting)),
        Ok(More::PastLimit) => Some(Err(StreamFault::InputTooLong)),
        Err(_) => Some(Err(StreamFault::InputFault)),
    }
}

// Shows what is in hand and what the input gives.
fn show_supply<S: Source, O: Sink, V: Show>(
    alloc: Global,
    checked: &Checked,
    plan: &Plan,
    shower: &V,
    supply: &mut Supply,
    input: &mut S,
    out: &mut O,
) -> Result<u64, StreamFault>
    requires planned { steps_of (grammar_of checked.now.tree.root) ≡ plan.now.steps }
    requires bounded { IsBounded (grammar_of checked.now.tree.root) }
    requires holds { V.holds shower.now }
    requires same { V.grammar shower.now ≡ grammar_of checked.now.tree.root }
    requires begins { supply.old.hand ≡ [] }
    requires limit { supply.old.left < 2 ^ 64 }
    ensures ends { ShowEnds (grammar_of checked.now.tree.root) (texts (grammar_of checked.now.tree.root) (V.shown shower.now) 1) supply.old.left (S.rest input.old) (S.rest input.new) (O.taken out.old) (O.taken out.new) result }
    ensures input { S.faults input.old ≤ S.faults input.new }
    ensures output { O.faults out.old ≤ O.faults out.new }
    ensures input_fault { IsErrOf result StreamFault.InputFault → Rose (S.faults input.old) (S.faults input.new) }
    ensures output_fault { IsErrOf result StreamFault.OutputFault → Rose (O.faults out.old) (O.faults out.new) }
    ensures input_stays { (IsErrOf result StreamFault.InputFault → ⊥) → Stays (S.faults input.old) (S.faults input.new) }
    ensures output_stays { (IsErrOf result StreamFault.OutputFault → ⊥) → Stays (O.faults out.old) (O.faults out.new) }
    ensures some { IsErrOf result StreamFault.EmptyPacket → ⊥ }
{
    let mut text = Vec::new(alloc);
    let mut draft = Draft::new(alloc);
    let mut count = 0u64;
    loop {
        text.clear();
        let pause = take_packets(
            alloc, checked, plan, shower, supply, &mut draft, &mut text, &mut count,
        );
        match write_all(out, &text) {
            Ok(()) => {}
            Err(_) => return Err(StreamFault::OutputFault),
        }
        match pause {
            Pause::Full => {}
            Pause::Wants(wanting) => match read_on(supply, input, count, wanting) {
                None => {}
                Some(result) => return result,
            },
            Pause::Refused(fault) => {
                return Err(StreamFault::Packet {
                    number: count + 1,
                    fault,
                });
            }
            Pause::NoMemory => return Err(StreamFault::NoMemory),
        }
    }
}

/// Reads packets until the input ends and writes the text of each, and answers how many packets there were. In a recording fewer
/// than 8 fill bits, whichever they are, stand behind each packet up to an octet. At most `limit` bytes are read, and one more to see
/// whether the input ends there.
///
/// The plan is that of the tree, as `compile` of `acn_plan` makes it. Texts are written in blocks, and before each read. The input is read only where what is in hand ends inside a packet, or at its
/// end, and at most `MOST_IN_HAND` bytes are in hand.
///
/// `EmptyPacket` comes exactly where the least bound is 0; then nothing is read. `Packet` names the first packet that can't be read,
/// with the one failure that there is. `InputTooLong` comes where the bytes up to the limit end inside a packet, or at its end, and
/// one byte more came. `InputFault` and `OutputFault` come only where that count of faults rose, and without them it stays;
/// `NoMemory` comes where memory runs out. With each of these the output gained the texts of the packets before, with `OutputFault` a
/// front of them. (Recordings are this profile's own.)
pub fn show_all<S: Source, O: Sink, V: Show>(
    alloc: Global,
    checked: &Checked,
    plan: &Plan,
    shower: &V,
    input: &mut S,
    out: &mut O,
    limit: u64,
) -> Result<u64, StreamFault>
    requires planned { steps_of (grammar_of checked.now.tree.root) ≡ plan.now.steps }
    requires holds { V.holds shower.now }
    requires same { V.grammar shower.now ≡ grammar_of checked.now.tree.root }
    ensures ends { ShowEnds (grammar_of checked.now.tree.root) (texts (grammar_of checked.now.tree.root) (V.shown shower.now) 1) limit (S.rest input.old) (S.rest input.new) (O.taken out.old) (O.taken out.new) result }
    ensures empty { IsErrOf result StreamFault.EmptyPacket ↔ ((span (grammar_of checked.now.tree.root)).least ≡ 0) }
    ensures input_fault { IsErrOf result StreamFault.InputFault → Rose (S.faults input.old) (S.faults input.new) }
    ensures output_fault { IsErrOf result StreamFault.OutputFault → Rose (O.faults out.old) (O.faults out.new) }
    ensures input_stays { (IsErrOf result StreamFault.InputFault → ⊥) → Stays (S.faults input.old) (S.faults input.new) }
    ensures output_stays { (IsErrOf result StreamFault.OutputFault → ⊥) → Stays (O.faults out.old) (O.faults out.new) }
    ensures input { S.faults input.old ≤ S.faults input.new }
    ensures output { O.faults out.old ≤ O.faults out.new }
{
    if bounds(checked).least == 0 {
        return Err(StreamFault::EmptyPacket);
    }
    match Supply::new(alloc, limit) {
        Ok(mut supply) => show_supply(alloc, checked, plan, shower, &mut supply, input, out),
        Err(_) => Err(StreamFault::NoMemory),
    }
}
