//! Taking packets of what is in hand.

ghost use Rattle.std.specs.Prelude.{◌≡◌, ◌+◌, ◌^◌, ◌<◌, ◌≤◌, ◌++◌, length, IfOk, OnErr};
ghost use Rattle.acn_route.specs.Adding.{Adds};
ghost use Rattle.acn_route.specs.Counting.{total};
ghost use Rattle.acn_route.specs.Listed.{tree_for};
ghost use Rattle.acn_route.specs.Routing.{LineBy};
ghost use Rattle.acn_route.specs.Space.{apid_of};
ghost use Rattle.acn_route.specs.Steps as spec;
ghost use Rattle.acn_route.specs.declared.header.TheConstants.{MOST_PACKET_OCTETS};
ghost use Rattle.acn_supply.specs.declared.window.TheConstants.{MOST_IN_HAND};

use crate::count::{LineKind, RouteCount, count};
use crate::header::whole_packet;
use crate::lines::put_line;
use crate::page::Page;
use crate::routes::Routes;
use acn_num::NoMemory;
use acn_supply::Supply;
use std::alloc::Global;

// So many bytes of lines are collected before they are written.
const BLOCK: usize = 65_536;

/// Why no more packets are taken of what is in hand.
#[derive(Clone, Copy)]
pub enum Pause {
    /// The lines fill a block.
    Full,
    /// What is in hand ends inside a packet, or nothing is.
    Wants,
    /// Memory ran out.
    NoMemory,
}

// Puts the line of a packet. Where it doesn't fit, what was put of it is cut off again.
fn put_whole(
    alloc: Global,
    routes: &Routes,
    packet: &[u8],
    page: &mut Page,
) -> Result<LineKind, NoMemory>
    requires { length packet.now ≤ MOST_PACKET_OCTETS }
    ensures added { IfOk result (λ kind. Adds (LineBy (tree_for routes.now (apid_of packet.now)) packet.now kind) page.old.bytes.items page.new.bytes.items) }
    ensures kept { OnErr result (page.new.bytes.items ≡ page.old.bytes.items) }
{
    let mark = page.bytes.len();
    match put_line(alloc, routes, packet, page) {
        Ok(kind) => Ok(kind),
        Err(no_memory) => {
            page.bytes.truncate(mark);
            Err(no_memory)
        }
    }
}

// Takes the packet at the front of what is in hand, puts its line, and answers what it says.
fn take_packet(
    alloc: Global,
    routes: &Routes,
    supply: &mut Supply,
    page: &mut Page,
) -> Result<LineKind, Pause>
    ensures step { spec.StepsOn routes.now supply.old supply.new page.old.bytes.items page.new.bytes.items result }
    ensures near { length supply.new.hand ≤ MOST_IN_HAND }
{
    let hand = supply.hand();
    match whole_packet(hand) {
        Some(size) => match put_whole(alloc, routes, &hand[..size], page) {
            Ok(kind) => {
                supply.skip(size);
                Ok(kind)
            }
            Err(_) => Err(Pause::NoMemory),
        },
        None => Err(Pause::Wants),
    }
}

/// Takes packets of what is in hand, puts their lines and counts them, until no whole packet is there or a block is full.
pub fn take_packets(
    alloc: Global,
    routes: &Routes,
    supply: &mut Supply,
    page: &mut Page,
    counts: &mut RouteCount,
) -> Pause
    requires room { total counts.old + length supply.old.hand < 2 ^ 64 }
    ensures taken { spec.TakesMany routes.now supply.old supply.new page.old.bytes.items page.new.bytes.items counts.old counts.new }
    ensures paused { spec.Pauses supply.new.hand result }
    ensures full { result ≡ Pause.Full → length supply.new.hand < length supply.old.hand }
    ensures near { length supply.new.hand ≤ MOST_IN_HAND }
{
    loop {
        match take_packet(alloc, routes, supply, page) {
            Ok(kind) => count(counts, kind),
            Err(pause) => return pause,
        }
        if page.bytes.len() >= BLOCK {
            return Pause::Full;
        }
    }
}
