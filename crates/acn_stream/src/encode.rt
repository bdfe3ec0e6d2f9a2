//! Encoding: lines of an input become packets of an output.

ghost use Rattle.std.specs.Prelude.{◌≡◌, ◌↔◌, ◌+◌, ◌^◌, ◌<◌, ◌≤◌, ◌++◌, ℕ, List, [], length, Option, None, Some, Err, IfSome, IsErrOf};
ghost use Rattle.acn_grammar.specs.Interval.{span};
ghost use Rattle.acn_grammar.specs.View.{grammar_of};
ghost use Rattle.acn_outside.specs.Counts.{Rose, Stays};
ghost use Rattle.acn_plan.specs.Steps.{steps_of};
ghost use Rattle.acn_stream.specs.Encoding.{EncodeEnds};
ghost use Rattle.acn_stream.specs.Passing as spec;
ghost use Rattle.acn_stream.specs.declared.encode.Way.TheVariants as way;
ghost use Rattle.acn_stream.specs.declared.stream_fault.StreamFault.TheVariants as stream;
ghost use Rattle.acn_supply.specs.declared.lines.NoLine.TheVariants as no_line;

use crate::lines::{Encoder, LineFault, Workspace, put_line};
use crate::stream_fault::StreamFault;
use acn_bounds::bounds;
use acn_check::Checked;
use acn_lines::{Lines, Room};
use acn_outside::{Sink, Source, write_all};
use acn_packing::{PACKET_OCTETS, Packer};
use acn_plan::{Plan, steps_say_their_root};
use acn_supply::{Line, NoLine, Supply, read_line};
use memchr::memchr;
use std::alloc::Global;
use std::mem::replace;

// So many bytes of packets are collected before they are written.
const BLOCK: usize = 65_536;

/// How many lines were passed, and how many packets they gave.
#[derive(Clone, Copy)]
pub struct Tally {
    lines: u64,
    packets: u64,
}

fn fault_at(number: u64, fault: LineFault) -> StreamFault
    ensures { result ≡ spec.fault_at number fault }
{
    match fault {
        LineFault::Bad(fault) => StreamFault::BadLine { number, fault },
        LineFault::Unfit(fault) => StreamFault::Unfit { number, fault },
        LineFault::NoMemory => StreamFault::NoMemory,
    }
}

fn fault_behind(lines: u64, why: NoLine) -> StreamFault
    requires { why ≡ no_line.TooLong → lines + 1 < 2 ^ 64 }
    ensures { result ≡ spec.fault_behind lines why }
{
    match why {
        NoLine::TooLong => StreamFault::LineTooLong { line: lines + 1 },
        NoLine::PastLimit => StreamFault::InputTooLong,
        NoLine::Failed => StreamFault::InputFault,
        NoLine::NoMemory => StreamFault::NoMemory,
    }
}

/// How encoding goes on behind a line. Faults are large, so they aren't handed on from line to line.
#[derive(Clone, Copy)]
pub enum Way {
    /// With the next line.
    On,
    /// It ended, with so many packets.
    Ended(u64),
    /// It failed, and the fault stands beside it.
    Failed,
}

// Tells the fault of the line of a number.
#[cold]
#[inline(never)]
fn fail_at(number: u64, why: &mut LineFault, fault: &mut StreamFault) -> Way
    ensures way { result ≡ way.Failed }
    ensures fault { fault.new ≡ spec.fault_at number why.old }
{
    *fault = fault_at(number, replace(why, LineFault::NoMemory));
    Way::Failed
}

// Tells why no line came behind so many.
#[cold]
#[inline(never)]
fn fail_behind(lines: u64, why: NoLine, fault: &mut StreamFault) -> Way
    requires { why ≡ no_line.TooLong → lines + 1 < 2 ^ 64 }
    ensures way { result ≡ way.Failed }
    ensures fault { fault.new ≡ spec.fault_behind lines why }
{
    *fault = fault_behind(lines, why);
    Way::Failed
}

// Reads a line and adds its packet.
fn take_line<S: Source>(
    alloc: Global,
    by: &Encoder<'_>,
    space: &mut Workspace,
    supply: &mut Supply,
    input: &mut S,
    tally: &mut Tally,
    fault: &mut StreamFault,
) -> Way
    requires can { spec.CanEncode by.now }
    requires room { spec.HasRoom supply.old tally.old }
    ensures goes { (limit : ℕ) (i : Option (List ℕ)) (text : List ℕ) → spec.Encoded (spec.grammar_by by.now) limit i (S.rest input.old) supply.old tally.old (text ++ space.old.packets.items) → spec.Goes (spec.grammar_by by.now) limit i (S.rest input.new) supply.new tally.new (text ++ space.new.packets.items) (spec.told result fault.new) }
    ensures room { result ≡ way.On → spec.HasRoom supply.new tally.new }
    ensures falls { result ≡ way.On → spec.unread supply.new < spec.unread supply.old }
    ensures count { S.faults input.old ≤ S.faults input.new }
    ensures failed { spec.told result fault.new ≡ Some (Err stream.InputFault) → Rose (S.faults input.old) (S.faults input.new) }
    ensures stays { (spec.told result fault.new ≡ Some (Err stream.InputFault) → ⊥) → Stays (S.faults input.old) (S.faults input.new) }
{
    let mut line = Vec::new(alloc);
    match read_line(supply, input, &mut line) {
        Ok(Line::Ended) => match put_line(alloc, by, &line, space) {
            Some(count) => {
                tally.lines += 1;
                tally.packets += count;
                Way::On
            }
            None => fail_at(tally.lines + 1, &mut space.why, fault),
        },
        Ok(Line::Last) => match put_line(alloc, by, &line, space) {
            Some(count) => Way::Ended(tally.packets + count),
            None => fail_at(tally.lines + 1, &mut space.why, fault),
        },
        Err(why) => fail_behind(tally.lines, why, fault),
    }
}

// The place of the first line feed.
fn feed_in(bytes: &[u8]) -> Option<usize>
    ensures { IfSome result (spec.IsFeed bytes.now) }
{
    memchr(b'\n', bytes)
}

// Adds the packet of the line that is in hand up to a line feed, where it stands.
fn take_here(
    alloc: Global,
    by: &Encoder<'_>,
    space: &mut Workspace,
    supply: &mut Supply,
    feed: usize,
    tally: &mut Tally,
    fault: &mut StreamFault,
) -> Way
    requires can { spec.CanEncode by.now }
    requires room { spec.HasRoom supply.old tally.old }
    requires feed { spec.IsFeed supply.old.hand feed }
    ensures goes { (limit : ℕ) (i i' : Option (List ℕ)) (text : List ℕ) → spec.Encoded (spec.grammar_by by.now) limit i i' supply.old tally.old (text ++ space.old.packets.items) → spec.Goes (spec.grammar_by by.now) limit i i' supply.new tally.new (text ++ space.new.packets.items) (spec.told result fault.new) }
    ensures room { result ≡ way.On → spec.HasRoom supply.new tally.new }
    ensures falls { result ≡ way.On → spec.unread supply.new < spec.unread supply.old }
    ensures kept { spec.told result fault.new ≡ Some (Err stream.InputFault) → ⊥ }
{
    let hand = supply.hand();
    let put = put_line(alloc, by, &hand[..feed], space);
    supply.skip(feed + 1);
    match put {
        Some(count) => {
            tally.lines += 1;
            tally.packets += count;
            Way::On
        }
        None => fail_at(tally.lines + 1, &mut space.why, fault),
    }
}

// Takes the lines that are in hand, up to a block of packets.
fn take_others(
    alloc: Global,
    by: &Encoder<'_>,
    space: &mut Workspace,
    supply: &mut Supply,
    tally: &mut Tally,
    fault: &mut StreamFault,
) -> Way
    requires can { spec.CanEncode by.now }
    requires room { spec.HasRoom supply.old tally.old }
    ensures goes { (limit : ℕ) (i i' : Option (List ℕ)) (text : List ℕ) → spec.Encoded (spec.grammar_by by.now) limit i i' supply.old tally.old (text ++ space.old.packets.items) → spec.Goes (spec.grammar_by by.now) limit i i' supply.new tally.new (text ++ space.new.packets.items) (spec.told result fault.new) }
    ensures room { result ≡ way.On → spec.HasRoom supply.new tally.new }
    ensures falls { result ≡ way.On → spec.unread supply.new ≤ spec.unread supply.old }
    ensures kept { spec.told result fault.new ≡ Some (Err stream.InputFault) → ⊥ }
{
    while space.packets.len() < BLOCK {
        let hand = supply.hand();
        match feed_in(hand) {
            Some(feed) => match take_here(alloc, by, space, supply, feed, tally, fault) {
                Way::On => {}
                Way::Ended(count) => return Way::Ended(count),
                Way::Failed => return Way::Failed,
            },
            None => return Way::On,
        }
    }
    Way::On
}

// Takes lines until no more is in hand, or the packets fill a block.
fn take_lines<S: Source>(
    alloc: Global,
    by: &Encoder<'_>,
    space: &mut Workspace,
    supply: &mut Supply,
    input: &mut S,
    tally: &mut Tally,
    fault: &mut StreamFault,
) -> Way
    requires can { spec.CanEncode by.now }
    requires room { spec.HasRoom supply.old tally.old }
    ensures goes { (limit : ℕ) (i : Option (List ℕ)) (text : List ℕ) → spec.Encoded (spec.grammar_by by.now) limit i (S.rest input.old) supply.old tally.old (text ++ space.old.packets.items) → spec.Goes (spec.grammar_by by.now) limit i (S.rest input.new) supply.new tally.new (text ++ space.new.packets.items) (spec.told result fault.new) }
    ensures room { result ≡ way.On → spec.HasRoom supply.new tally.new }
    ensures falls { result ≡ way.On → spec.unread supply.new < spec.unread supply.old }
    ensures count { S.faults input.old ≤ S.faults input.new }
    ensures failed { spec.told result fault.new ≡ Some (Err stream.InputFault) → Rose (S.faults input.old) (S.faults input.new) }
    ensures stays { (spec.told result fault.new ≡ Some (Err stream.InputFault) → ⊥) → Stays (S.faults input.old) (S.faults input.new) }
{
    match take_line(alloc, by, space, supply, input, tally, fault) {
        Way::On => take_others(alloc, by, space, supply, tally, fault),
        Way::Ended(count) => Way::Ended(count),
        Way::Failed => Way::Failed,
    }
}

// Encodes what is in hand and what the input gives.
fn encode_supply<S: Source, O: Sink>(
    alloc: Global,
    by: &Encoder<'_>,
    supply: &mut Supply,
    input: &mut S,
    out: &mut O,
) -> Result<u64, StreamFault>
    requires can { spec.CanEncode by.now }
    requires begins { supply.old.hand ≡ [] }
    requires limit { supply.old.left < 2 ^ 64 }
    ensures ends { EncodeEnds (spec.grammar_by by.now) supply.old.left (S.rest input.old) (S.rest input.new) (O.taken out.old) (O.taken out.new) result }
    ensures input { S.faults input.old ≤ S.faults input.new }
    ensures output { O.faults out.old ≤ O.faults out.new }
    ensures input_fault { IsErrOf result StreamFault.InputFault → Rose (S.faults input.old) (S.faults input.new) }
    ensures output_fault { IsErrOf result StreamFault.OutputFault → Rose (O.faults out.old) (O.faults out.new) }
    ensures input_stays { (IsErrOf result StreamFault.InputFault → ⊥) → (IsErrOf result StreamFault.OutputFault → ⊥) → Stays (S.faults input.old) (S.faults input.new) }
    ensures output_stays { (IsErrOf result StreamFault.OutputFault → ⊥) → Stays (O.faults out.old) (O.faults out.new) }
    ensures some { IsErrOf result StreamFault.EmptyPacket → ⊥ }
{
    let mut space = Workspace {
        room: Room::new(alloc),
        packets: Vec::new(alloc),
        buffer: [0u8; PACKET_OCTETS],
        packer: Packer::new(),
        why: LineFault::NoMemory,
    };
    let mut fault = StreamFault::NoMemory;
    let mut tally = Tally {
        lines: 0,
        packets: 0,
    };
    loop {
        space.packets.clear();
        let way = take_lines(alloc, by, &mut space, supply, input, &mut tally, &mut fault);
        match write_all(out, &space.packets) {
            Ok(()) => {}
            Err(_) => return Err(StreamFault::OutputFault),
        }
        match way {
            Way::On => {}
            Way::Ended(count) => return Ok(count),
            Way::Failed => return Err(fault),
        }
    }
}

// Encodes lines.
fn encode_in_order<S: Source, O: Sink>(
    alloc: Global,
    by: &Encoder<'_>,
    input: &mut S,
    out: &mut O,
    limit: u64,
) -> Result<u64, StreamFault>
    requires can { spec.CanEncode by.now }
    ensures ends { EncodeEnds (spec.grammar_by by.now) limit (S.rest input.old) (S.rest input.new) (O.taken out.old) (O.taken out.new) result }
    ensures input { S.faults input.old ≤ S.faults input.new }
    ensures output { O.faults out.old ≤ O.faults out.new }
    ensures input_fault { IsErrOf result StreamFault.InputFault → Rose (S.faults input.old) (S.faults input.new) }
    ensures output_fault { IsErrOf result StreamFault.OutputFault → Rose (O.faults out.old) (O.faults out.new) }
    ensures input_stays { (IsErrOf result StreamFault.InputFault → ⊥) → (IsErrOf result StreamFault.OutputFault → ⊥) → Stays (S.faults input.old) (S.faults input.new) }
    ensures output_stays { (IsErrOf result StreamFault.OutputFault → ⊥) → Stays (O.faults out.old) (O.faults out.new) }
    ensures some { IsErrOf result StreamFault.EmptyPacket → ⊥ }
{
    match Supply::new(alloc, limit) {
        Ok(mut supply) => encode_supply(alloc, by, &mut supply, input, out),
        Err(_) => Err(StreamFault::NoMemory),
    }
}

/// Reads lines of JSON until the input ends and writes the packet of each value, filled with zeros up to an octet, and answers how many
/// packets there were. Lines end at a line feed, which the last may lack. A line of spaces, tabs and carriage returns alone is
/// passed over; it has a number all the same. At most `limit` bytes are read, and one more to see whether the input ends there.
///
/// The plan is that of the tree, as `compile` of `acn_plan` makes it. What all lines of the tree need is made once, before anything is
/// read. Packets are written in blocks, and before each read. The input is read only where no line feed is in hand. Writing a packet
/// takes no memory but for the block that it is added to.
///
/// `EmptyPacket` comes exactly where the least bound is 0; then nothing is read. `BadLine` names the first line that gives no value,
/// with its first fault, and `Unfit` the first whose value is refused, with the one reason, whichever comes first.
/// `LineTooLong` comes where more than `MOST_LINE_BYTES` bytes of a line came, and `InputTooLong` where the bytes up to the limit end
/// inside a line, or at its end, and one byte more came. `InputFault` and `OutputFault` come only where that count of faults
/// rose, `NoMemory` where memory runs out. Without the two both counts stay; where the output failed, the input may have failed before.
/// With each of these the output gained the packets of the lines before, with `OutputFault` a front of them. (Lines are this profile's
/// own.)
pub fn encode_all<S: Source, O: Sink>(
    alloc: Global,
    checked: &Checked,
    plan: &Plan,
    input: &mut S,
    out: &mut O,
    limit: u64,
) -> Result<u64, StreamFault>
    requires planned { steps_of (grammar_of checked.now.tree.root) ≡ plan.now.steps }
    ensures ends { EncodeEnds (grammar_of checked.now.tree.root) limit (S.rest input.old) (S.rest input.new) (O.taken out.old) (O.taken out.new) result }
    ensures empty { IsErrOf result StreamFault.EmptyPacket ↔ ((span (grammar_of checked.now.tree.root)).least ≡ 0) }
    ensures input_fault { IsErrOf result StreamFault.InputFault → Rose (S.faults input.old) (S.faults input.new) }
    ensures output_fault { IsErrOf result StreamFault.OutputFault → Rose (O.faults out.old) (O.faults out.new) }
    ensures input_stays { (IsErrOf result StreamFault.InputFault → ⊥) → (IsErrOf result StreamFault.OutputFault → ⊥) → Stays (S.faults input.old) (S.faults input.new) }
    ensures output_stays { (IsErrOf result StreamFault.OutputFault → ⊥) → Stays (O.faults out.old) (O.faults out.new) }
    ensures input { S.faults input.old ≤ S.faults input.new }
    ensures output { O.faults out.old ≤ O.faults out.new }
{
    steps_say_their_root();
    if bounds(checked).least == 0 {
        return Err(StreamFault::EmptyPacket);
    }
    match Lines::new(alloc, checked.tree()) {
        Ok(order) => {
            let by = Encoder {
                checked,
                plan,
                order: &order,
            };
            encode_in_order(alloc, &by, input, out, limit)
        }
        Err(_) => Err(StreamFault::NoMemory),
    }
}
