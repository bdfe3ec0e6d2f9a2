//! A value packed with tables of open slots of four sizes, the smallest first.

ghost use Rattle.std.specs.Prelude.{◌≡◌, [], ◌*◌, ◌^◌, ◌≤◌, length, OnOk, OnErr, IfOk};
ghost use Rattle.acn_bits.specs.Writing.{place_of};
ghost use Rattle.acn_num.specs.Bits.{bits};
ghost use Rattle.acn_events.specs.Laws.{first_state};
ghost use Rattle.acn_grammar.specs.Interval.{span};
ghost use Rattle.acn_grammar.specs.Shaped.{Shaped};
ghost use Rattle.acn_grammar.specs.View.{data_of};
ghost use Rattle.acn_plan.specs.Back.{root_of};
ghost use Rattle.acn_packing.specs.Tries.{EndsTry, HaltsTry, HaltsWhole, PacksWhole, StandsInFront, is_full};
ghost use Rattle.acn_writer.specs.Answers.{state_of};
ghost use Rattle.acn_writer.specs.Halts.{class_of, halt_of};
ghost use Rattle.acn_packing.specs.declared.tries.TheConstants.{NO_SLOTS, FEW_SLOTS, FEW_AVOIDED, SOME_SLOTS, SOME_AVOIDED};
ghost use Rattle.acn_event_limits.specs.Laws.{largest};

use crate::octets::fill_octet;
use acn_bits::WriteCursor;
use acn_event_limits::largest_tables_have_room;
use acn_events::{
    events_write_the_packet, runs_are_writable, stops_keep_what_is_later, stops_pass_their_holes,
};
use acn_fill::MOST_AVOIDED_IN_ALL;
use acn_grammar::{MOST_OPEN_SLOTS, Value};
use acn_num::Path;
use acn_pack::{Trace, pack_node};
use acn_packet_laws::{accepted_is_sound, lengths_are_told};
use acn_plan::Plan;
use acn_writer::{Halt, Halted, Writer};

/// The smallest table has no room for open slots, nor for numbers to avoid or contents.
const NO_SLOTS: usize = 0;

/// The next one has room for so many open slots, and as many contents have room beside it.
const FEW_SLOTS: usize = 4;

/// And for so many numbers to avoid.
const FEW_AVOIDED: usize = 4;

/// The one behind it has room for so many open slots.
const SOME_SLOTS: usize = 16;

/// And for so many numbers to avoid.
const SOME_AVOIDED: usize = 64;

fn is_full(halt: &Halt) -> bool
    ensures { result ≡ is_full halt.now }
{
    match halt {
        Halt::Full => true,
        Halt::Breaks => false,
        Halt::Unmet { .. } => false,
        Halt::Miscounts { .. } => false,
        Halt::Lost => false,
    }
}

// The whole value, over a writer with nothing begun at the first bit of its buffer.
fn pack_whole<'p, const N: usize, const S: usize, const A: usize>(
    plan: &'p Plan,
    v: &Value,
    writer: &mut Writer<'_, 'p, N, S, A>,
    trace: &mut Trace,
) -> Result<(), Halted>
    requires shaped { Shaped (root_of plan.now.steps) (data_of v.now) }
    requires root { trace.old.path ≡ [] }
    requires fresh { state_of writer.old ≡ first_state (state_of writer.old).buf }
    ensures packs { OnOk result (PacksWhole (root_of plan.now.steps) (data_of v.now) writer.old writer.new) }
    ensures back { OnOk result (trace.new.path ≡ []) }
    ensures halts { OnErr result (HaltsWhole (root_of plan.now.steps) (data_of v.now) (halt_of trace.new.path trace.new.why) writer.old writer.new) }
    ensures same_buffer { writer.new.cursor.buf.ghost_name ≡ writer.old.cursor.buf.ghost_name }
{
    accepted_is_sound();
    events_write_the_packet();
    runs_are_writable();
    stops_keep_what_is_later();
    stops_pass_their_holes();
    let steps = plan.with_runs();
    match pack_node(steps, 0, v, writer, trace) {
        Ok(()) => {
            let _at = writer.at();
            Ok(())
        }
        Err(halted) => Err(halted),
    }
}

// With the table that has no room: where nothing is begun.
fn pack_with_none<const N: usize>(
    plan: &Plan,
    v: &Value,
    buf: &mut [u8; N],
    trace: &mut Trace,
) -> Result<u64, Halted>
    requires few { N ≤ 2 ^ 32 }
    requires shaped { Shaped (root_of plan.now.steps) (data_of v.now) }
    requires root { trace.old.path ≡ [] }
    ensures packed { IfOk result (λ n. StandsInFront (root_of plan.now.steps) (data_of v.now) n (bits buf.old) (bits buf.new)) }
    ensures back { OnOk result (trace.new.path ≡ []) }
    ensures halted { OnErr result (HaltsTry (class_of NO_SLOTS NO_SLOTS) (8 * N) (root_of plan.now.steps) (data_of v.now) (halt_of trace.new.path trace.new.why) (bits buf.old) (bits buf.new)) }
{
    let cursor = WriteCursor::new(buf);
    let mut answer = Err(Halted);
    let _end = write_with_none(plan, v, cursor, trace, &mut answer);
    answer
}

// The same over the buffer's writer, which is given back.
fn write_with_none<'b, const N: usize>(
    plan: &Plan,
    v: &Value,
    cursor: WriteCursor<'b, N>,
    trace: &mut Trace,
    answer: &mut Result<u64, Halted>,
) -> WriteCursor<'b, N>
    requires shaped { Shaped (root_of plan.now.steps) (data_of v.now) }
    requires root { trace.old.path ≡ [] }
    requires front { place_of cursor ≡ 0 }
    requires long { length cursor.buf.now ≡ N }
    ensures packed { IfOk answer.new (λ n. StandsInFront (root_of plan.now.steps) (data_of v.now) n (bits cursor.entry.buf.now) (bits result.buf.now)) }
    ensures back { OnOk answer.new (trace.new.path ≡ []) }
    ensures halted { OnErr answer.new (HaltsTry (class_of NO_SLOTS NO_SLOTS) (8 * N) (root_of plan.now.steps) (data_of v.now) (halt_of trace.new.path trace.new.why) (bits cursor.entry.buf.now) (bits result.buf.now)) }
    ensures same_buffer { result.buf.ghost_name ≡ cursor.entry.buf.ghost_name }
{
    let mut writer = Writer::<N, NO_SLOTS, NO_SLOTS>::new(cursor);
    match pack_whole(plan, v, &mut writer, trace) {
        Ok(()) => {
            let mut end = writer.finish();
            *answer = Ok(fill_octet(&mut end));
            end
        }
        Err(halted) => {
            *answer = Err(halted);
            writer.abandon()
        }
    }
}

// With the one for few slots.
fn pack_with_few<const N: usize>(
    plan: &Plan,
    v: &Value,
    buf: &mut [u8; N],
    trace: &mut Trace,
) -> Result<u64, Halted>
    requires few { N ≤ 2 ^ 32 }
    requires shaped { Shaped (root_of plan.now.steps) (data_of v.now) }
    requires root { trace.old.path ≡ [] }
    ensures packed { IfOk result (λ n. StandsInFront (root_of plan.now.steps) (data_of v.now) n (bits buf.old) (bits buf.new)) }
    ensures back { OnOk result (trace.new.path ≡ []) }
    ensures halted { OnErr result (HaltsTry (class_of FEW_SLOTS FEW_AVOIDED) (8 * N) (root_of plan.now.steps) (data_of v.now) (halt_of trace.new.path trace.new.why) (bits buf.old) (bits buf.new)) }
{
    let cursor = WriteCursor::new(buf);
    let mut answer = Err(Halted);
    let _end = write_with_few(plan, v, cursor, trace, &mut answer);
    answer
}

// The same over the buffer's writer, which is given back.
fn write_with_few<'b, const N: usize>(
    plan: &Plan,
    v: &Value,
    cursor: WriteCursor<'b, N>,
    trace: &mut Trace,
    answer: &mut Result<u64, Halted>,
) -> WriteCursor<'b, N>
    requires shaped { Shaped (root_of plan.now.steps) (data_of v.now) }
    requires root { trace.old.path ≡ [] }
    requires front { place_of cursor ≡ 0 }
    requires long { length cursor.buf.now ≡ N }
    ensures packed { IfOk answer.new (λ n. StandsInFront (root_of plan.now.steps) (data_of v.now) n (bits cursor.entry.buf.now) (bits result.buf.now)) }
    ensures back { OnOk answer.new (trace.new.path ≡ []) }
    ensures halted { OnErr answer.new (HaltsTry (class_of FEW_SLOTS FEW_AVOIDED) (8 * N) (root_of plan.now.steps) (data_of v.now) (halt_of trace.new.path trace.new.why) (bits cursor.entry.buf.now) (bits result.buf.now)) }
    ensures same_buffer { result.buf.ghost_name ≡ cursor.entry.buf.ghost_name }
{
    let mut writer = Writer::<N, FEW_SLOTS, FEW_AVOIDED>::new(cursor);
    match pack_whole(plan, v, &mut writer, trace) {
        Ok(()) => {
            let mut end = writer.finish();
            *answer = Ok(fill_octet(&mut end));
            end
        }
        Err(halted) => {
            *answer = Err(halted);
            writer.abandon()
        }
    }
}

// With the next one.
#[inline(never)]
fn pack_with_some<const N: usize>(
    plan: &Plan,
    v: &Value,
    buf: &mut [u8; N],
    trace: &mut Trace,
) -> Result<u64, Halted>
    requires few { N ≤ 2 ^ 32 }
    requires shaped { Shaped (root_of plan.now.steps) (data_of v.now) }
    requires root { trace.old.path ≡ [] }
    ensures packed { IfOk result (λ n. StandsInFront (root_of plan.now.steps) (data_of v.now) n (bits buf.old) (bits buf.new)) }
    ensures back { OnOk result (trace.new.path ≡ []) }
    ensures halted { OnErr result (HaltsTry (class_of SOME_SLOTS SOME_AVOIDED) (8 * N) (root_of plan.now.steps) (data_of v.now) (halt_of trace.new.path trace.new.why) (bits buf.old) (bits buf.new)) }
{
    let cursor = WriteCursor::new(buf);
    let mut answer = Err(Halted);
    let _end = write_with_some(plan, v, cursor, trace, &mut answer);
    answer
}

// The same over the buffer's writer, which is given back.
#[inline(never)]
fn write_with_some<'b, const N: usize>(
    plan: &Plan,
    v: &Value,
    cursor: WriteCursor<'b, N>,
    trace: &mut Trace,
    answer: &mut Result<u64, Halted>,
) -> WriteCursor<'b, N>
    requires shaped { Shaped (root_of plan.now.steps) (data_of v.now) }
    requires root { trace.old.path ≡ [] }
    requires front { place_of cursor ≡ 0 }
    requires long { length cursor.buf.now ≡ N }
    ensures packed { IfOk answer.new (λ n. StandsInFront (root_of plan.now.steps) (data_of v.now) n (bits cursor.entry.buf.now) (bits result.buf.now)) }
    ensures back { OnOk answer.new (trace.new.path ≡ []) }
    ensures halted { OnErr answer.new (HaltsTry (class_of SOME_SLOTS SOME_AVOIDED) (8 * N) (root_of plan.now.steps) (data_of v.now) (halt_of trace.new.path trace.new.why) (bits cursor.entry.buf.now) (bits result.buf.now)) }
    ensures same_buffer { result.buf.ghost_name ≡ cursor.entry.buf.ghost_name }
{
    let mut writer = Writer::<N, SOME_SLOTS, SOME_AVOIDED>::new(cursor);
    match pack_whole(plan, v, &mut writer, trace) {
        Ok(()) => {
            let mut end = writer.finish();
            *answer = Ok(fill_octet(&mut end));
            end
        }
        Err(halted) => {
            *answer = Err(halted);
            writer.abandon()
        }
    }
}

// With the largest one, which has room for all that is open at once.
#[inline(never)]
fn pack_with_most<const N: usize>(
    plan: &Plan,
    v: &Value,
    buf: &mut [u8; N],
    trace: &mut Trace,
) -> Result<u64, Halted>
    requires few { N ≤ 2 ^ 32 }
    requires shaped { Shaped (root_of plan.now.steps) (data_of v.now) }
    requires root { trace.old.path ≡ [] }
    ensures packed { IfOk result (λ n. StandsInFront (root_of plan.now.steps) (data_of v.now) n (bits buf.old) (bits buf.new)) }
    ensures back { OnOk result (trace.new.path ≡ []) }
    ensures halted { OnErr result (HaltsTry largest (8 * N) (root_of plan.now.steps) (data_of v.now) (halt_of trace.new.path trace.new.why) (bits buf.old) (bits buf.new)) }
{
    let cursor = WriteCursor::new(buf);
    let mut answer = Err(Halted);
    let _end = write_with_most(plan, v, cursor, trace, &mut answer);
    answer
}

// The same over the buffer's writer, which is given back.
#[inline(never)]
fn write_with_most<'b, const N: usize>(
    plan: &Plan,
    v: &Value,
    cursor: WriteCursor<'b, N>,
    trace: &mut Trace,
    answer: &mut Result<u64, Halted>,
) -> WriteCursor<'b, N>
    requires shaped { Shaped (root_of plan.now.steps) (data_of v.now) }
    requires root { trace.old.path ≡ [] }
    requires front { place_of cursor ≡ 0 }
    requires long { length cursor.buf.now ≡ N }
    ensures packed { IfOk answer.new (λ n. StandsInFront (root_of plan.now.steps) (data_of v.now) n (bits cursor.entry.buf.now) (bits result.buf.now)) }
    ensures back { OnOk answer.new (trace.new.path ≡ []) }
    ensures halted { OnErr answer.new (HaltsTry largest (8 * N) (root_of plan.now.steps) (data_of v.now) (halt_of trace.new.path trace.new.why) (bits cursor.entry.buf.now) (bits result.buf.now)) }
    ensures same_buffer { result.buf.ghost_name ≡ cursor.entry.buf.ghost_name }
{
    let mut writer = Writer::<N, MOST_OPEN_SLOTS, MOST_AVOIDED_IN_ALL>::new(cursor);
    match pack_whole(plan, v, &mut writer, trace) {
        Ok(()) => {
            let mut end = writer.finish();
            *answer = Ok(fill_octet(&mut end));
            end
        }
        Err(halted) => {
            *answer = Err(halted);
            writer.abandon()
        }
    }
}

// Where the table for few slots is full: with the next one, and where that is full with the largest.
fn pack_with_more<const N: usize>(
    plan: &Plan,
    v: &Value,
    buf: &mut [u8; N],
    trace: &mut Trace,
) -> Result<u64, Halted>
    requires few { N ≤ 2 ^ 32 }
    requires fits { (span (root_of plan.now.steps)).greatest ≤ 8 * N }
    requires shaped { Shaped (root_of plan.now.steps) (data_of v.now) }
    ensures packed { IfOk result (λ n. StandsInFront (root_of plan.now.steps) (data_of v.now) n (bits buf.old) (bits buf.new)) }
    ensures back { OnOk result (trace.new.path ≡ []) }
    ensures ends { OnErr result (EndsTry (root_of plan.now.steps) (data_of v.now) trace.new.path trace.new.why) }
{
    largest_tables_have_room();
    lengths_are_told();
    trace.path = Path::new();
    match pack_with_some(plan, v, buf, trace) {
        Ok(count) => Ok(count),
        Err(halted) => {
            if is_full(&trace.why) {
                trace.path = Path::new();
                pack_with_most(plan, v, buf, trace)
            } else {
                Err(halted)
            }
        }
    }
}

// With the table for few slots, and where that is full with the next ones.
fn pack_with_slots<const N: usize>(
    plan: &Plan,
    v: &Value,
    buf: &mut [u8; N],
    trace: &mut Trace,
) -> Result<u64, Halted>
    requires few { N ≤ 2 ^ 32 }
    requires fits { (span (root_of plan.now.steps)).greatest ≤ 8 * N }
    requires shaped { Shaped (root_of plan.now.steps) (data_of v.now) }
    requires root { trace.old.path ≡ [] }
    ensures packed { IfOk result (λ n. StandsInFront (root_of plan.now.steps) (data_of v.now) n (bits buf.old) (bits buf.new)) }
    ensures back { OnOk result (trace.new.path ≡ []) }
    ensures ends { OnErr result (EndsTry (root_of plan.now.steps) (data_of v.now) trace.new.path trace.new.why) }
{
    lengths_are_told();
    match pack_with_few(plan, v, buf, trace) {
        Ok(count) => Ok(count),
        Err(halted) => {
            if is_full(&trace.why) {
                pack_with_more(plan, v, buf, trace)
            } else {
                Err(halted)
            }
        }
    }
}

/// Packs a value with the smallest of the tables that isn't full, from the root of a trace on: with
/// the one that has no room where no earlier value had slots or contents, which is noted. With Ok the
/// first bits of the buffer are what is written for the value, the answer is how many there are, and
/// the trace is at the root again. Else the value's events stop at the halt of the trace.
pub fn pack_in<const N: usize>(
    plan: &Plan,
    v: &Value,
    buf: &mut [u8; N],
    trace: &mut Trace,
    has_slots: &mut bool,
) -> Result<u64, Halted>
    requires few { N ≤ 2 ^ 32 }
    requires fits { (span (root_of plan.now.steps)).greatest ≤ 8 * N }
    requires shaped { Shaped (root_of plan.now.steps) (data_of v.now) }
    requires root { trace.old.path ≡ [] }
    ensures packed { IfOk result (λ n. StandsInFront (root_of plan.now.steps) (data_of v.now) n (bits buf.old) (bits buf.new)) }
    ensures back { OnOk result (trace.new.path ≡ []) }
    ensures ends { OnErr result (EndsTry (root_of plan.now.steps) (data_of v.now) trace.new.path trace.new.why) }
{
    if *has_slots {
        return pack_with_slots(plan, v, buf, trace);
    }
    lengths_are_told();
    match pack_with_none(plan, v, buf, trace) {
        Ok(count) => Ok(count),
        Err(halted) => {
            if is_full(&trace.why) {
                *has_slots = true;
                trace.path = Path::new();
                pack_with_slots(plan, v, buf, trace)
            } else {
                Err(halted)
            }
        }
    }
}
