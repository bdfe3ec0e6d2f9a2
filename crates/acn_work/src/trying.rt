//! A value that is written, and read again.

ghost use Rattle.std.specs.Prelude.{◌≡◌, ◌≤◌, length, IfOk};
ghost use Rattle.acn_num.specs.Bits.{bits as bits_of};
ghost use Rattle.acn_grammar.specs.Interval.{span};
ghost use Rattle.acn_grammar.specs.Shaped.{Shaped};
ghost use Rattle.acn_grammar.specs.View.{data_of};
ghost use Rattle.acn_grammar.specs.declared.limits.TheConstants.{MOST_PACKET_BITS};
ghost use Rattle.acn_plan.specs.Back.{root_of};
ghost use Rattle.acn_reads.specs.Answers.{OnlyFront};
ghost use Rattle.acn_reads.specs.declared.answers.TheConstants.{MOST_BYTES};
ghost use Rattle.acn_work.specs.Steps.{CameOf, HasFront, IsShort};

use acn_grammar::{Refuse, Value};
use acn_num::NoMemory;
use acn_packing::{PACKET_OCTETS, pack};
use acn_plan::Plan;
use acn_unpack::unpack;
use std::alloc::Global;

/// What came of a value.
#[derive(Clone, Copy)]
pub enum Outcome {
    /// It was written, and read again, with so many bits.
    Packed(u64),
    /// It is refused.
    Refused,
}

// What is left of the reader's refusals where a value is at the front.
fn no_memory(refuse: Refuse) -> NoMemory
    requires { refuse ≡ Refuse.NoMemory }
{
    match refuse {
        Refuse::NoMemory => NoMemory,
        Refuse::Bad(_) => unreachable!(),
    }
}

// The value at the front of octets that have one, and the number of its bits.
fn read_front(alloc: Global, plan: &Plan, octets: &[u8]) -> Result<(Value, u64), NoMemory>
    requires few { length octets.now ≤ MOST_BYTES }
    requires there { HasFront (root_of plan.now.steps) (bits_of octets.now) }
    ensures { IfOk result (λ pair. OnlyFront (root_of plan.now.steps) (bits_of octets.now) (data_of pair.0) pair.1) }
{
    let _steps = plan.steps();
    match unpack(alloc, plan, octets) {
        Ok(pair) => Ok(pair),
        Err(refuse) => Err(no_memory(refuse)),
    }
}

/// What comes of a value: it is written into the buffer and read again as itself, or it is refused. Want of memory is the only refusal
/// of the call.
pub fn outcome_of(
    alloc: Global,
    plan: &Plan,
    value: &Value,
    buffer: &mut [u8; PACKET_OCTETS],
) -> Result<Outcome, NoMemory>
    requires fits { (span (root_of plan.now.steps)).greatest ≤ MOST_PACKET_BITS }
    requires shaped { Shaped (root_of plan.now.steps) (data_of value.now) }
    ensures came { IfOk result (λ outcome. CameOf (root_of plan.now.steps) (data_of value.now) outcome) }
    ensures short { IfOk result IsShort }
{
    match pack(plan, value, buffer) {
        Ok(_) => {
            let (_value, used) = read_front(alloc, plan, buffer.as_slice())?;
            Ok(Outcome::Packed(used))
        }
        Err(_) => Ok(Outcome::Refused),
    }
}
