//! The line of a packet.

ghost use Rattle.std.specs.Prelude.{◌≡◌, ◌*◌, ◌≤◌, ◌++◌, ◌∷◌, [], length, codes, IfOk, OnOk, OnErr};
ghost use Rattle.std.specs.Fmt.{decimal};
ghost use Rattle.std.specs.List.{concat};
ghost use Rattle.acn_num.specs.Bits.{bits as bits_of, octets as octets_for};
ghost use Rattle.acn_grammar.specs.Front.{Front};
ghost use Rattle.acn_grammar.specs.View.{data_of, grammar_of};
ghost use Rattle.acn_json.specs.Kept.{Kept};
ghost use Rattle.acn_json.specs.Lines.{line_of};
ghost use Rattle.acn_reads.specs.Answers.{Refuses};
ghost use Rattle.acn_report.specs.Texts.{fault_words};
ghost use Rattle.acn_route.specs.Adding.{Adds};
ghost use Rattle.acn_route.specs.Ready.{IsReady};
ghost use Rattle.acn_route.specs.Routing.{LineBy, TreeLine};
ghost use Rattle.acn_route.specs.Listed.{tree_for};
ghost use Rattle.acn_route.specs.Space.{apid_of};
ghost use Rattle.acn_route.specs.declared.header.TheConstants.{MOST_PACKET_OCTETS};

use crate::count::LineKind;
use crate::header::packet_apid;
use crate::page::{Page, append};
use crate::route::Route;
use crate::routes::Routes;
use acn_grammar::{Fault, Refuse, Value};
use acn_num::NoMemory;
use acn_plan::steps_say_their_root;
use acn_report::Part;
use acn_transcode::put_front;
use acn_unpack::unpack;
use std::alloc::Global;

// The least count of octets that holds the bits.
fn octets_of(bits: u64) -> u64
    requires { bits ≤ 8 * MOST_PACKET_OCTETS }
    ensures { result ≡ octets_for bits }
{
    (bits + 7) / 8
}

// Puts what stands in front of the line of a value that fills its packet.
fn begin_good(apid: u32, page: &mut Page) -> Result<(), NoMemory>
    ensures added { OnOk result (page.new.bytes.items ≡ page.old.bytes.items ++ concat (codes "good " ∷ decimal apid ∷ codes " " ∷ [])) }
    ensures kept { OnErr result (Kept page.old.bytes.items page.new.bytes.items) }
{
    append(
        page,
        &[
            Part::Text("good "),
            Part::Count(u64::from(apid)),
            Part::Text(" "),
        ],
    )
}

// Puts the line of a value that fills its packet.
fn put_good(apid: u32, route: &Route, value: &Value, page: &mut Page) -> Result<(), NoMemory>
    requires { IsReady route.now }
    ensures added { OnOk result (page.new.bytes.items ≡ page.old.bytes.items ++ concat (codes "good " ∷ decimal apid ∷ codes " " ∷ line_of (grammar_of route.now.checked.tree.root) (data_of value.now) ∷ codes "\n" ∷ [])) }
    ensures kept { OnErr result (Kept page.old.bytes.items page.new.bytes.items) }
{
    begin_good(apid, page)?;
    route
        .lines
        .put(route.checked.tree(), value, &mut page.bytes)?;
    append(page, &[Part::Text("\n")])?;
    Ok(())
}

// Puts the line of a packet of so many octets, of which the value takes so many bits.
fn put_long(apid: u32, octets: u64, bits: u64, page: &mut Page) -> Result<(), NoMemory>
    ensures added { OnOk result (page.new.bytes.items ≡ page.old.bytes.items ++ concat (codes "long " ∷ decimal apid ∷ codes " " ∷ decimal octets ∷ codes " " ∷ decimal bits ∷ codes "\n" ∷ [])) }
    ensures kept { OnErr result (Kept page.old.bytes.items page.new.bytes.items) }
{
    append(
        page,
        &[
            Part::Text("long "),
            Part::Count(u64::from(apid)),
            Part::Text(" "),
            Part::Count(octets),
            Part::Text(" "),
            Part::Count(bits),
            Part::Text("\n"),
        ],
    )
}

// Puts the line of a packet in which no value can be read.
fn put_bad<'a>(
    apid: u32,
    route: &'a Route,
    fault: &'a Fault,
    page: &mut Page,
) -> Result<(), NoMemory>
    ensures added { OnOk result (page.new.bytes.items ≡ page.old.bytes.items ++ concat (codes "bad " ∷ decimal apid ∷ codes " " ∷ (fault_words route.now.checked.tree fault.now ++ codes "\n" ∷ []))) }
    ensures kept { OnErr result (Kept page.old.bytes.items page.new.bytes.items) }
{
    let tree = route.checked.tree();
    append(
        page,
        &[
            Part::Text("bad "),
            Part::Count(u64::from(apid)),
            Part::Text(" "),
            Part::Path(tree, &fault.path),
            Part::Text(": "),
            Part::Reason(&fault.reason),
            Part::Text(" at bit "),
            Part::Count(fault.at),
            Part::Text("\n"),
        ],
    )
}

// Puts the line of a packet of so many octets that has no route.
fn put_unrouted(apid: u32, octets: u64, page: &mut Page) -> Result<(), NoMemory>
    ensures added { OnOk result (page.new.bytes.items ≡ page.old.bytes.items ++ concat (codes "none " ∷ decimal apid ∷ codes " " ∷ decimal octets ∷ codes "\n" ∷ [])) }
    ensures kept { OnErr result (Kept page.old.bytes.items page.new.bytes.items) }
{
    append(
        page,
        &[
            Part::Text("none "),
            Part::Count(u64::from(apid)),
            Part::Text(" "),
            Part::Count(octets),
            Part::Text("\n"),
        ],
    )
}

// Puts the line of a packet at whose front a value of so many bits stands.
fn put_value(
    apid: u32,
    route: &Route,
    packet: &[u8],
    value: &Value,
    size: u64,
    page: &mut Page,
) -> Result<LineKind, NoMemory>
    requires ready { IsReady route.now }
    requires named { apid ≡ apid_of packet.now }
    requires few { length packet.now ≤ MOST_PACKET_OCTETS }
    requires front { Front (grammar_of route.now.checked.tree.root) (bits_of packet.now) (data_of value.now) size }
    ensures added { IfOk result (λ kind. Adds (TreeLine route.now.checked.tree packet.now kind) page.old.bytes.items page.new.bytes.items) }
    ensures kept { OnErr result (Kept page.old.bytes.items page.new.bytes.items) }
{
    let octets = packet.len() as u64;
    if octets_of(size) < octets {
        put_long(apid, octets, size, page)?;
        return Ok(LineKind::Long);
    }
    put_good(apid, route, value, page)?;
    Ok(LineKind::Good)
}

// Puts the line of a packet that fails so, unless memory ran out.
fn put_refused<'a>(
    apid: u32,
    route: &'a Route,
    packet: &[u8],
    refuse: &'a Refuse,
    page: &mut Page,
) -> Result<LineKind, NoMemory>
    requires named { apid ≡ apid_of packet.now }
    requires refused { Refuses (grammar_of route.now.checked.tree.root) (bits_of packet.now) refuse.now }
    ensures added { IfOk result (λ kind. Adds (TreeLine route.now.checked.tree packet.now kind) page.old.bytes.items page.new.bytes.items) }
    ensures kept { OnErr result (Kept page.old.bytes.items page.new.bytes.items) }
{
    match refuse {
        Refuse::Bad(fault) => {
            put_bad(apid, route, fault, page)?;
            Ok(LineKind::Bad)
        }
        Refuse::NoMemory => Err(NoMemory),
    }
}

// Puts the line of a packet by the plan of its route.
fn put_planned(
    alloc: Global,
    apid: u32,
    route: &Route,
    packet: &[u8],
    page: &mut Page,
) -> Result<LineKind, NoMemory>
    requires ready { IsReady route.now }
    requires named { apid ≡ apid_of packet.now }
    requires few { length packet.now ≤ MOST_PACKET_OCTETS }
    ensures added { IfOk result (λ kind. Adds (TreeLine route.now.checked.tree packet.now kind) page.old.bytes.items page.new.bytes.items) }
    ensures kept { OnErr result (Kept page.old.bytes.items page.new.bytes.items) }
{
    match unpack(alloc, &route.plan, packet) {
        Ok((value, size)) => put_value(apid, route, packet, &value, size, page),
        Err(refuse) => put_refused(apid, route, packet, &refuse, page),
    }
}

// Puts the line of a packet that has a route. It is put as that of a value which fills the packet,
// while the bits are read, and taken back where octets stand behind the value. Where it isn't sure
// that a value is there, the plan is asked of the same packet.
fn put_routed(
    alloc: Global,
    apid: u32,
    route: &Route,
    packet: &[u8],
    page: &mut Page,
) -> Result<LineKind, NoMemory>
    requires ready { IsReady route.now }
    requires named { apid ≡ apid_of packet.now }
    requires few { length packet.now ≤ MOST_PACKET_OCTETS }
    ensures added { IfOk result (λ kind. Adds (TreeLine route.now.checked.tree packet.now kind) page.old.bytes.items page.new.bytes.items) }
    ensures kept { OnErr result (Kept page.old.bytes.items page.new.bytes.items) }
{
    steps_say_their_root();
    let _steps = route.plan.steps();
    let root = route.checked.tree().root();
    let order = route.lines.root();
    let octets = packet.len() as u64;
    let mark = page.bytes.len();
    begin_good(apid, page)?;
    match put_front(root, order, packet, &mut page.draft, &mut page.bytes) {
        Some(bits) => {
            if octets_of(bits) < octets {
                page.bytes.truncate(mark);
                put_long(apid, octets, bits, page)?;
                return Ok(LineKind::Long);
            }
            Ok(LineKind::Good)
        }
        None => {
            page.bytes.truncate(mark);
            put_planned(alloc, apid, route, packet, page)
        }
    }
}

/// Puts the line of a packet, by its route and its octets alone, and answers what it says. It fails only where memory runs out; what
/// stood on the page then still stands in front.
pub fn put_line(
    alloc: Global,
    routes: &Routes,
    packet: &[u8],
    page: &mut Page,
) -> Result<LineKind, NoMemory>
    requires { length packet.now ≤ MOST_PACKET_OCTETS }
    ensures added { IfOk result (λ kind. Adds (LineBy (tree_for routes.now (apid_of packet.now)) packet.now kind) page.old.bytes.items page.new.bytes.items) }
    ensures kept { OnErr result (Kept page.old.bytes.items page.new.bytes.items) }
{
    let apid = packet_apid(packet);
    match routes.route_of(apid) {
        Some(route) => put_routed(alloc, apid, route, packet, page),
        None => {
            put_unrouted(apid, packet.len() as u64, page)?;
            Ok(LineKind::Unrouted)
        }
    }
}
