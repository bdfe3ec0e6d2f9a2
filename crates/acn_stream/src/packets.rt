//! The packets in hand.

ghost use Rattle.std.specs.Prelude.{◌≡◌, ◌+◌, ◌*◌, ◌^◌, ◌<◌, ◌≤◌, ◌++◌, ◌∷◌, [], length, OnOk, OnErr};
ghost use Rattle.acn_num.specs.Bits.{octets};
ghost use Rattle.acn_grammar.specs.View.{grammar_of, data_of};
ghost use Rattle.acn_plan.specs.Steps.{steps_of};
ghost use Rattle.acn_stream.specs.Recording.{IsPacket};
ghost use Rattle.acn_stream.specs.Steps as spec;
ghost use Rattle.acn_stream.specs.Steps.{IsBounded};
ghost use Rattle.acn_supply.specs.declared.window.TheConstants.{MOST_IN_HAND};

use crate::shower::Show;
use acn_check::Checked;
use acn_grammar::{Fault, Reason, Refuse, Value};
use acn_num::NoMemory;
use acn_packet_laws::short_is_near;
use acn_plan::{Plan, steps_say_their_root};
use acn_supply::Supply;
use acn_transcode::Draft;
use acn_unpack::unpack;
use std::alloc::Global;

// So many bytes of texts are collected before they are written.
const BLOCK: usize = 65_536;

/// Why no more packets are taken of what is in hand.
#[derive(Drop)]
pub enum Pause {
    /// The texts fill a block.
    Full,
    /// More bytes are wanted: nothing is in hand, or bits are wanting, as this says.
    Wants(Option<Fault>),
    /// What is in hand fails with this.
    Refused(Fault),
    /// Memory ran out.
    NoMemory,
}

/// The least count of octets that holds the bits.
pub fn octets_of(bits: u64) -> usize
    requires { bits ≤ 8 * MOST_IN_HAND }
    ensures { result ≡ octets bits }
{
    ((bits + 7) / 8) as usize
}

fn is_short(reason: &Reason) -> bool
    ensures { result ≡ spec.is_short reason.now }
{
    matches!(reason, Reason::Short)
}

// Adds the text of a packet. Where it doesn't fit, what was put of it is cut off again.
fn put_shown<V: Show>(
    shower: &V,
    number: u64,
    value: &Value,
    piece: &[u8],
    text: &mut Vec<u8>,
) -> Result<(), NoMemory>
    requires holds { V.holds shower.now }
    requires packet { IsPacket (V.grammar shower.now) (data_of value.now) piece.now }
    requires few { length piece.now ≤ MOST_IN_HAND }
    ensures added { OnOk result (text.new.items ≡ text.old.items ++ V.shown shower.now number (data_of value.now) piece.now) }
    ensures kept { OnErr result (text.new.items ≡ text.old.items) }
{
    let mark = text.len();
    match shower.show(number, value, piece, text) {
        Ok(()) => Ok(()),
        Err(no_memory) => {
            text.truncate(mark);
            Err(no_memory)
        }
    }
}

// Why bytes that no packet begins are left.
fn pause_of(refuse: Refuse) -> Pause
    ensures { result ≡ spec.pause_of refuse }
{
    match refuse {
        Refuse::Bad(fault) => {
            if is_short(&fault.reason) {
                Pause::Wants(Some(fault))
            } else {
                Pause::Refused(fault)
            }
        }
        Refuse::NoMemory => Pause::NoMemory,
    }
}

// Takes the packet at the front of what is in hand, which stands behind `count` others, and adds its
// text. Where the text isn't put while the bits are read, the plan is asked of the same bytes: it
// gives the value, or the one fault.
fn take_packet<V: Show>(
    alloc: Global,
    checked: &Checked,
    plan: &Plan,
    shower: &V,
    supply: &mut Supply,
    draft: &mut Draft,
    text: &mut Vec<u8>,
    count: u64,
) -> Result<(), Pause>
    requires planned { steps_of (grammar_of checked.now.tree.root) ≡ plan.now.steps }
    requires bounded { IsBounded (grammar_of checked.now.tree.root) }
    requires holds { V.holds shower.now }
    requires same { V.grammar shower.now ≡ grammar_of checked.now.tree.root }
    requires room { count + length supply.old.hand < 2 ^ 64 }
    ensures step { spec.StepsOn (grammar_of checked.now.tree.root) (V.shown shower.now) count supply.old supply.new text.old.items text.new.items result }
    ensures near { length supply.new.hand ≤ MOST_IN_HAND }
{
    short_is_near();
    steps_say_their_root();
    let _accepted = checked.tree();
    let _steps = plan.steps();
    let hand = supply.hand();
    if hand.is_empty() {
        return Err(Pause::Wants(None));
    }
    if let Some(bits) = shower.show_front(count + 1, hand, draft, text) {
        supply.skip(octets_of(bits));
        return Ok(());
    }
    match unpack(alloc, plan, hand) {
        Ok((value, bits)) => {
            let size = octets_of(bits);
            match put_shown(shower, count + 1, &value, &hand[..size], text) {
                Ok(()) => {
                    supply.skip(size);
                    Ok(())
                }
                Err(_) => Err(Pause::NoMemory),
            }
        }
        Err(refuse) => Err(pause_of(refuse)),
    }
}

/// Takes packets of what is in hand, adds their texts and counts them, until no more is there or a block is full.
pub fn take_packets<V: Show>(
    alloc: Global,
    checked: &Checked,
    plan: &Plan,
    shower: &V,
    supply: &mut Supply,
    draft: &mut Draft,
    text: &mut Vec<u8>,
    count: &mut u64,
) -> Pause
    requires planned { steps_of (grammar_of checked.now.tree.root) ≡ plan.now.steps }
    requires bounded { IsBounded (grammar_of checked.now.tree.root) }
    requires holds { V.holds shower.now }
    requires same { V.grammar shower.now ≡ grammar_of checked.now.tree.root }
    requires room { count.old + length supply.old.hand < 2 ^ 64 }
    ensures taken { spec.TakesMany (grammar_of checked.now.tree.root) (V.shown shower.now) supply.old supply.new text.old.items text.new.items count.old count.new }
    ensures paused { spec.Pauses (grammar_of checked.now.tree.root) supply.new.hand result }
    ensures full { result ≡ Pause.Full → length supply.new.hand < length supply.old.hand }
    ensures near { length supply.new.hand ≤ MOST_IN_HAND }
{
    loop {
        match take_packet(alloc, checked, plan, shower, supply, draft, text, *count) {
            Ok(()) => *count += 1,
            Err(pause) => return pause,
        }
        if text.len() >= BLOCK {
            return Pause::Full;
        }
    }
}
