//! Routing: space packets of an input become lines of an output.

ghost use Rattle.std.specs.Prelude.{◌≡◌, ◌+◌, ◌^◌, ◌<◌, ◌≤◌, ℕ, List, [], length, Option, Some, Err, IsErrOf};
ghost use Rattle.acn_outside.specs.Counts.{Rose, Stays};
ghost use Rattle.acn_route.specs.Counting.{total};
ghost use Rattle.acn_route.specs.Listed.{Listed};
ghost use Rattle.acn_route.specs.Routing.{RouteEnds};
ghost use Rattle.acn_route.specs.Steps as spec;
ghost use Rattle.acn_route.specs.declared.packets.Pause.TheVariants.{Wants};
ghost use Rattle.acn_supply.specs.declared.window.TheConstants.{MOST_IN_HAND};

use crate::count::{RouteCount, all};
use crate::packets::{Pause, take_packets};
use crate::page::Page;
use crate::route_fault::RouteFault;
use crate::routes::Routes;
use acn_outside::{Sink, Source, write_all};
use acn_supply::{More, Supply};
use std::alloc::Global;

// What the end of the input says of what is in hand: nothing, or the beginning of a packet.
fn at_end(supply: &Supply, counts: &RouteCount) -> Result<RouteCount, RouteFault>
    requires { total counts.now + length supply.now.hand < 2 ^ 64 }
    ensures { result ≡ spec.end_of supply.now.hand counts.now }
{
    let left = supply.hand().len();
    if left == 0 {
        return Ok(*counts);
    }
    let number = all(counts) + 1;
    Err(RouteFault::Cut {
        number,
        left: left as u64,
    })
}

// Reads once, where what is in hand ends inside a packet, or nothing is. An answer says that it ended.
fn read_on<S: Source>(
    supply: &mut Supply,
    input: &mut S,
    counts: &RouteCount,
) -> Option<Result<RouteCount, RouteFault>>
    requires few { length supply.old.hand < MOST_IN_HAND }
    requires room { total counts.now + length supply.old.hand < 2 ^ 64 }
    ensures goes_on { (routes : List Listed) (limit : ℕ) (i o o' : Option (List ℕ)) → spec.SoFar routes limit i (S.rest input.old) o o' supply.old counts.now → spec.Pauses supply.old.hand Wants → spec.GoesOn routes limit i (S.rest input.new) o o' supply.old supply.new counts.now result }
    ensures count { S.faults input.old ≤ S.faults input.new }
    ensures known { spec.EndsReading result }
    ensures failed { result ≡ Some (Err RouteFault.InputFault) → Rose (S.faults input.old) (S.faults input.new) }
    ensures stays { (result ≡ Some (Err RouteFault.InputFault) → ⊥) → Stays (S.faults input.old) (S.faults input.new) }
{
    match supply.more(input) {
        Ok(More::Bytes) => None,
        Ok(More::End) => Some(at_end(supply, counts)),
        Ok(More::PastLimit) => Some(Err(RouteFault::InputTooLong)),
        Err(_) => Some(Err(RouteFault::InputFault)),
    }
}

// Routes what is in hand and what the input gives.
fn route_supply<S: Source, O: Sink>(
    alloc: Global,
    routes: &Routes,
    supply: &mut Supply,
    input: &mut S,
    out: &mut O,
) -> Result<RouteCount, RouteFault>
    requires begins { supply.old.hand ≡ [] }
    requires limit { supply.old.left < 2 ^ 64 }
    ensures ends { RouteEnds routes.now supply.old.left (S.rest input.old) (S.rest input.new) (O.taken out.old) (O.taken out.new) result }
    ensures input { S.faults input.old ≤ S.faults input.new }
    ensures output { O.faults out.old ≤ O.faults out.new }
    ensures input_fault { IsErrOf result RouteFault.InputFault → Rose (S.faults input.old) (S.faults input.new) }
    ensures output_fault { IsErrOf result RouteFault.OutputFault → Rose (O.faults out.old) (O.faults out.new) }
    ensures input_stays { (IsErrOf result RouteFault.InputFault → ⊥) → Stays (S.faults input.old) (S.faults input.new) }
    ensures output_stays { (IsErrOf result RouteFault.OutputFault → ⊥) → Stays (O.faults out.old) (O.faults out.new) }
{
    let mut page = Page::new(alloc);
    let mut counts = RouteCount {
        good: 0,
        long: 0,
        bad: 0,
        none: 0,
    };
    loop {
        page.bytes.clear();
        let pause = take_packets(alloc, routes, supply, &mut page, &mut counts);
        match write_all(out, &page.bytes) {
            Ok(()) => {}
            Err(_) => return Err(RouteFault::OutputFault),
        }
        match pause {
            Pause::Full => {}
            Pause::Wants => match read_on(supply, input, &counts) {
                None => {}
                Some(result) => return result,
            },
            Pause::NoMemory => return Err(RouteFault::NoMemory),
        }
    }
}

/// Reads space packets until the input ends and writes the line of each, by the tree of its application process identifier, and answers
/// how many lines of each kind there were. The line of a packet says:
///
/// - `good APID JSON`, where a value fills the packet: the identifier, and the value's line of JSON;
/// - `long APID OCTETS BITS`, where whole octets stand behind a value: the packet's octets, and the value's bits;
/// - `bad APID PATH: REASON at bit B`, where no value can be read: where, why, and at which bit;
/// - `none APID OCTETS`, where the identifier has no route.
///
/// It rests on the routes and on the packet's octets alone, and a packet in which no value can be read stops nothing. At most `limit`
/// bytes are read, and one more to see whether the input ends there. Lines are written in blocks, and before each read. The input is
/// read only where what is in hand ends inside a packet, or nothing is, and at most `MOST_IN_HAND` bytes are in hand.
///
/// `Cut` comes where the input ends inside a packet, and `InputTooLong` where a byte behind the limit came. `InputFault` and
/// `OutputFault` come only where that count of faults rose, and without them it stays; `NoMemory` comes where memory runs out. With each
/// of these the output gained the lines of the packets before, with `OutputFault` a front of them. (Packets are those of CCSDS
/// 133.0-B-2, 4.1; lines are this program's own.)
pub fn route_all<S: Source, O: Sink>(
    alloc: Global,
    routes: &Routes,
    input: &mut S,
    out: &mut O,
    limit: u64,
) -> Result<RouteCount, RouteFault>
    ensures ends { RouteEnds routes.now limit (S.rest input.old) (S.rest input.new) (O.taken out.old) (O.taken out.new) result }
    ensures input_fault { IsErrOf result RouteFault.InputFault → Rose (S.faults input.old) (S.faults input.new) }
    ensures output_fault { IsErrOf result RouteFault.OutputFault → Rose (O.faults out.old) (O.faults out.new) }
    ensures input_stays { (IsErrOf result RouteFault.InputFault → ⊥) → Stays (S.faults input.old) (S.faults input.new) }
    ensures output_stays { (IsErrOf result RouteFault.OutputFault → ⊥) → Stays (O.faults out.old) (O.faults out.new) }
    ensures input { S.faults input.old ≤ S.faults input.new }
    ensures output { O.faults out.old ≤ O.faults out.new }
{
    match Supply::new(alloc, limit) {
        Ok(mut supply) => route_supply(alloc, routes, &mut supply, input, out),
        Err(_) => Err(RouteFault::NoMemory),
    }
}
