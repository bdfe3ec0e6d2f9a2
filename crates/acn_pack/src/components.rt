//! Components of a SEQUENCE that hold no others. The path goes down to one only where it fails.

ghost use Rattle.std.specs.Prelude.{◌≡◌, ◌<◌, ◌∷◌, [], ◌++◌, ℕ, List, length, Some, IsTrue, OnOk, true, false};
ghost use Rattle.acn_grammar.specs.Grammar.{Grammar, node, num};
ghost use Rattle.acn_grammar.specs.Leaves.{num_fine};
ghost use Rattle.acn_grammar.specs.View.{data_of};
ghost use Rattle.acn_num.specs.declared.limits.TheConstants.{MOST_STEPS};
ghost use Rattle.acn_events.specs.Event.{aligns};
ghost use Rattle.acn_events.specs.Events.{form_events, presence_events};
ghost use Rattle.acn_plan.specs.Back.{Mark, form_in};
ghost use Rattle.acn_pack.specs.Packs.{Packs};
ghost use Rattle.acn_pack.specs.Parts.{place_events, IsString};

use crate::asking::ask_presence;
use crate::leaves::{put_aligned, put_bits, put_octets, put_text};
use crate::parts::note_own;
use crate::steps::Component;
use crate::trace::Trace;
use acn_grammar::{NumLeaf, Presence, Value};
use acn_plan::{Act, Step};
use acn_writer::{Halt, Halted, Writer};

/// Component k, which is absent.
pub fn put_absent<const N: usize, const S: usize, const A: usize>(
    presence: &Presence,
    k: u32,
    w: &mut Writer<'_, '_, N, S, A>,
    trace: &mut Trace,
) -> Result<(), Halted>
    requires { length trace.old.path < MOST_STEPS }
    ensures packs { Packs (presence_events (trace.old.path ++ k ∷ []) false presence.now) w.old w.new trace.new.path trace.new.why result }
    ensures path { OnOk result (trace.new.path ≡ trace.old.path) }
{
    match ask_presence(presence, false, w, &mut trace.why) {
        Ok(()) => Ok(()),
        Err(halted) => {
            trace.path.push(k);
            Err(halted)
        }
    }
}

/// Component k, which is a number.
pub fn put_numbered<const N: usize, const S: usize, const A: usize>(
    align: u32,
    leaf: &NumLeaf,
    component: Component<'_>,
    k: u32,
    v: &Value,
    w: &mut Writer<'_, '_, N, S, A>,
    trace: &mut Trace,
) -> Result<(), Halted>
    requires fine { IsTrue (num_fine leaf.now) }
    requires deep { length trace.old.path < MOST_STEPS }
    ensures packs { (root : Grammar) → Packs (place_events root (node align (num leaf.now)) component.entry.presence.now component.entry.slot (trace.old.path ++ k ∷ []) (Some (data_of v.now))) w.old w.new trace.new.path trace.new.why result }
    ensures path { OnOk result (trace.new.path ≡ trace.old.path) }
{
    match put_own(align, leaf, component, v, w, &mut trace.why) {
        Ok(()) => Ok(()),
        Err(halted) => {
            trace.path.push(k);
            Err(halted)
        }
    }
}

// A number that may be a slot's.
fn put_own<const N: usize, const S: usize, const A: usize>(
    align: u32,
    leaf: &NumLeaf,
    component: Component<'_>,
    v: &Value,
    w: &mut Writer<'_, '_, N, S, A>,
    why: &mut Halt,
) -> Result<(), Halted>
    requires { IsTrue (num_fine leaf.now) }
    ensures { (root : Grammar) (path : List ℕ) → Packs (place_events root (node align (num leaf.now)) component.entry.presence.now component.entry.slot path (Some (data_of v.now))) w.old w.new path why.new result }
{
    note_own(leaf, component.slot, v, w, why)?;
    ask_presence(component.presence, true, w, why)?;
    put_aligned(align, leaf, v, w, why)
}

/// Component k, which is octets, bits or a text.
pub fn put_string<const N: usize, const S: usize, const A: usize>(
    step: &Step,
    presence: &Presence,
    k: u32,
    v: &Value,
    w: &mut Writer<'_, '_, N, S, A>,
    trace: &mut Trace,
) -> Result<(), Halted>
    requires fine { IsString step.now.act }
    requires deep { length trace.old.path < MOST_STEPS }
    ensures packs { (root : Grammar) (next i : ℕ) (ms : List Mark) → Packs (presence_events (trace.old.path ++ k ∷ []) true presence.now ++ aligns step.now.align ∷ form_events root (form_in step.now.act next i ms) (trace.old.path ++ k ∷ []) (data_of v.now)) w.old w.new trace.new.path trace.new.why result }
    ensures path { OnOk result (trace.new.path ≡ trace.old.path) }
{
    match put_present(step, presence, v, w, &mut trace.why) {
        Ok(()) => Ok(()),
        Err(halted) => {
            trace.path.push(k);
            Err(halted)
        }
    }
}

fn put_present<const N: usize, const S: usize, const A: usize>(
    step: &Step,
    presence: &Presence,
    v: &Value,
    w: &mut Writer<'_, '_, N, S, A>,
    why: &mut Halt,
) -> Result<(), Halted>
    requires { IsString step.now.act }
    ensures { (root : Grammar) (next i : ℕ) (ms : List Mark) (path : List ℕ) → Packs (presence_events path true presence.now ++ aligns step.now.align ∷ form_events root (form_in step.now.act next i ms) path (data_of v.now)) w.old w.new path why.new result }
{
    ask_presence(presence, true, w, why)?;
    w.align(step.align, why)?;
    put_act(&step.act, v, w, why)
}

// The octets, the bits or the characters.
fn put_act<const N: usize, const S: usize, const A: usize>(
    act: &Act,
    v: &Value,
    w: &mut Writer<'_, '_, N, S, A>,
    why: &mut Halt,
) -> Result<(), Halted>
    requires { IsString act.now }
    ensures { (root : Grammar) (next i : ℕ) (ms : List Mark) (path : List ℕ) → Packs (form_events root (form_in act.now next i ms) path (data_of v.now)) w.old w.new path why.new result }
{
    match act {
        Act::Octets(sizing) => put_octets(sizing, v, w, why),
        Act::Bits(sizing) => put_bits(sizing, v, w, why),
        Act::Text(leaf) => put_text(leaf, v, w, why),
        Act::Num(_) => unreachable!(),
        Act::Seq(_) => unreachable!(),
        Act::List(_) => unreachable!(),
        Act::Choice(_) => unreachable!(),
        Act::Contained(_) => unreachable!(),
    }
}
