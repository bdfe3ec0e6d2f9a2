//! The packet of a line.

ghost use Rattle.std.specs.Prelude.{◌≡◌, ◌==◌, ◌||◌, ◌≤◌, ℕ, List, length, false};
ghost use Rattle.acn_grammar.specs.Grammar.{Grammar};
ghost use Rattle.acn_grammar.specs.Meets.{Unfit as Refusal};
ghost use Rattle.acn_grammar.specs.Shaped.{Shaped};
ghost use Rattle.acn_grammar.specs.View.{data_of};
ghost use Rattle.acn_json.specs.Answers.{IsFault};
ghost use Rattle.acn_json.specs.Reads.{line_gives};
ghost use Rattle.acn_packing.specs.Packed.{IsRefusedFor};
ghost use Rattle.acn_plan.specs.Back.{root_of};
ghost use Rattle.acn_stream.specs.Encoding as spec;
ghost use Rattle.acn_stream.specs.Passing.{CanEncode, PutsLine, PutsValue, RefusesValue, Fails, answered, grammar_by};
ghost use Rattle.acn_stream.specs.Steps.{IsBounded};
ghost use Rattle.acn_stream.specs.declared.lines.LineFault.TheVariants as fault;
ghost use Rattle.acn_supply.specs.declared.lines.TheConstants.{MOST_LINE_BYTES};

use crate::packets::octets_of;
use acn_check::Checked;
use acn_grammar::{Unfit, Value};
use acn_json::{JsonFault, from_line};
use acn_lines::{Lines, Room};
use acn_packing::{PACKET_OCTETS, Packer, pack};
use acn_plan::Plan;
use std::alloc::Global;

/// What lines are encoded by: a tree, its plan, and the order of its members.
#[derive(Clone, Copy)]
pub struct Encoder<'a> {
    pub checked: &'a Checked,
    pub plan: &'a Plan,
    pub order: &'a Lines,
}

/// What is used again from line to line: the room for its tokens, the packets that aren't written yet, the buffer in which a packet is
/// made and what makes it, and, where a line gave no packet, why it didn't.
#[derive(Drop)]
pub struct Workspace {
    pub room: Room,
    pub packets: Vec<u8>,
    pub buffer: [u8; PACKET_OCTETS],
    pub packer: Packer,
    pub why: LineFault,
}

/// Why a line gives no packet.
#[derive(Drop)]
pub enum LineFault {
    /// It gives no value.
    Bad(JsonFault),
    /// Its value isn't written.
    Unfit(Unfit),
    /// Memory ran out.
    NoMemory,
}

fn is_space(byte: u8) -> bool
    ensures { result ≡ (byte == 32 || byte == 9 || byte == 13) }
{
    byte == b' ' || byte == b'\t' || byte == b'\r'
}

// Whether the line has spaces, tabs and carriage returns alone. Most have none in front.
fn is_blank(line: &[u8]) -> bool
    ensures { result ≡ spec.is_blank line.now }
{
    for byte in line {
        if !is_space(*byte) {
            return false;
        }
    }
    true
}

// Tells why a value is refused.
#[cold]
#[inline(never)]
fn tell_refused(plan: &Plan, value: &Value, space: &mut Workspace)
    requires bounded { IsBounded (root_of plan.now.steps) }
    requires shaped { Shaped (root_of plan.now.steps) (data_of value.now) }
    requires refused { (why : Refusal) × IsRefusedFor (root_of plan.now.steps) (data_of value.now) why }
    ensures why { RefusesValue (root_of plan.now.steps) (data_of value.now) space.new.why }
    ensures none { space.new.packets.items ≡ space.old.packets.items }
{
    space.why = match pack(plan, value, &mut space.buffer) {
        Ok(_) => unreachable!(),
        Err(unfit) => LineFault::Unfit(unfit),
    };
}

// Tells that memory ran out.
#[cold]
#[inline(never)]
fn tell_no_memory(why: &mut LineFault)
    ensures { why.new ≡ fault.NoMemory }
{
    *why = LineFault::NoMemory;
}

// Adds the one packet of a value.
fn put_value(plan: &Plan, value: &Value, space: &mut Workspace) -> Option<u64>
    requires bounded { IsBounded (root_of plan.now.steps) }
    requires shaped { Shaped (root_of plan.now.steps) (data_of value.now) }
    ensures { PutsValue (root_of plan.now.steps) (data_of value.now) space.old.packets.items space.new.packets.items (answered result space.new.why) }
{
    match space.packer.pack(plan, value, &mut space.buffer) {
        Some(bits) => {
            let size = octets_of(bits);
            match space.packets.extend_from_slice(&space.buffer[..size]) {
                Ok(()) => Some(1),
                Err(_) => {
                    tell_no_memory(&mut space.why);
                    None
                }
            }
        }
        None => {
            tell_refused(plan, value, space);
            None
        }
    }
}

fn bad(fault: JsonFault) -> LineFault
    ensures { (g : Grammar) (line : List ℕ) → spec.is_blank line ≡ false → IsFault fault (line_gives g line) → Fails g line result }
{
    match fault {
        JsonFault::NotJson => LineFault::Bad(JsonFault::NotJson),
        JsonFault::Shape { path } => LineFault::Bad(JsonFault::Shape { path }),
        JsonFault::UnknownMember { path, member } => {
            LineFault::Bad(JsonFault::UnknownMember { path, member })
        }
        JsonFault::MissingMember { path } => LineFault::Bad(JsonFault::MissingMember { path }),
        JsonFault::NoMemory => LineFault::NoMemory,
    }
}

// The same for a line whose value isn't seen at once, if it has one.
#[inline(never)]
fn put_unseen(alloc: Global, by: &Encoder<'_>, line: &[u8], space: &mut Workspace) -> Option<u64>
    requires can { CanEncode by.now }
    requires few { length line.now ≤ MOST_LINE_BYTES }
    requires some { spec.is_blank line.now ≡ false }
    ensures { PutsLine (grammar_by by.now) line.now space.old.packets.items space.new.packets.items (answered result space.new.why) }
{
    match from_line(alloc, by.checked.tree(), line) {
        Ok(value) => put_value(by.plan, &value, space),
        Err(fault) => {
            space.why = bad(fault);
            None
        }
    }
}

/// Adds the packet of the line, and answers how many these are: none of a blank line, else one. None comes where the line gives
/// none, and then it stands beside it why.
pub fn put_line(alloc: Global, by: &Encoder<'_>, line: &[u8], space: &mut Workspace) -> Option<u64>
    requires can { CanEncode by.now }
    requires few { length line.now ≤ MOST_LINE_BYTES }
    ensures { PutsLine (grammar_by by.now) line.now space.old.packets.items space.new.packets.items (answered result space.new.why) }
{
    if is_blank(line) {
        return Some(0);
    }
    match by
        .order
        .seen(alloc, by.checked.tree(), &mut space.room, line)
    {
        Some(value) => {
            let answer = put_value(by.plan, &value, space);
            space.room.keep(value);
            answer
        }
        None => put_unseen(alloc, by, line, space),
    }
}
