//! The walk over steps and a value, as one cycle of functions.
//!
//! `T` stands for nothing: what the cycle asks of its own calls is stated as the code needs it only
//! where the cycle is generic over a type, and not over numbers alone.

ghost use Rattle.std.specs.Prelude.{◌≡◌, ◌<◌, ◌≤◌, ◌+◌, ℕ, suc, Some, List, ◌∷◌, [], ◌++◌, drop, length, option_map, OnOk, IfOk, IfSome, true};
ghost use Rattle.acn_grammar.specs.Grammar.{Fields, seq, list, contained, record_of, list_of, alt};
ghost use Rattle.acn_grammar.specs.View.{data_of, elements_view, places_view, with_field};
ghost use Rattle.acn_num.specs.declared.limits.TheConstants.{MOST_SIZE};
ghost use Rattle.acn_events.specs.Events.{events, form_events, field_events, run_events, rule_events, presence_events};
ghost use Rattle.acn_plan.specs.Back.{StepAt, root_of, node_at, form_at, fields_at, field_by};
ghost use Rattle.acn_plan.specs.Made.{IsMade};
ghost use Rattle.acn_plan.specs.declared.step.Act.TheVariants.{Choice as ChoiceAct};
ghost use Rattle.acn_plan.specs.declared.step.Step.{Step as StepData};
ghost use Rattle.acn_pack.specs.Packs.{Packs, PacksTo};
ghost use Rattle.acn_pack.specs.Parts.{place_events, left_of, name_in, tests_in, OwnIsNumber, IsItemed};
ghost use Rattle.acn_pack.specs.Sounds.{IsSound, FormIsSound, FieldsAreSound};

use crate::asking::{ask_presence, ask_size};
use crate::components::{put_absent, put_numbered, put_string};
use crate::flags::put_flags;
use crate::leaves::{fill_home, put_bits, put_end, put_index, put_number, put_octets, put_text};
use crate::parts::{ask_case, ask_item, put_inserted};
use crate::steps::{Component, at, case_of, component_of, inserted_slot, is_string, number_leaf};
use crate::trace::Trace;
use crate::values::{case_in, elements_in, places_in};
use crate::word::{Spot, put_run, run_at};
use acn_grammar::{ChoiceRule, Presence, Sizing, Value};
use acn_plan::{Act, Cases, Step, Steps};
use acn_writer::{Halted, Writer};

/// The node of a step.
#[cycle(pack)]
pub fn pack_step<'p, T, const N: usize, const S: usize, const A: usize>(
    steps: &'p Steps,
    this: usize,
    v: &Value,
    w: &mut Writer<'_, 'p, N, S, A>,
    trace: &mut Trace,
) -> Result<(), Halted>
    requires made { IsMade steps.now }
    requires there { this < length steps.now }
    requires sound { IsSound (root_of steps.now) (length trace.old.path) (node_at steps.now this) }
    ensures packs { Packs (events (root_of steps.now) (node_at steps.now this) trace.old.path (data_of v.now)) w.old w.new trace.new.path trace.new.why result }
    ensures path { OnOk result (trace.new.path ≡ trace.old.path) }
{
    let step = at(steps, this);
    w.align(step.align, &mut trace.why)?;
    pack_body::<T, N, S, A>(steps, this, step, v, w, trace)
}

#[cycle(pack)]
fn pack_body<'p, T, const N: usize, const S: usize, const A: usize>(
    steps: &'p Steps,
    this: usize,
    step: &'p Step,
    v: &Value,
    w: &mut Writer<'_, 'p, N, S, A>,
    trace: &mut Trace,
) -> Result<(), Halted>
    requires made { IsMade steps.now }
    requires there { this < length steps.now }
    requires is { StepAt steps.now this step.now }
    requires sound { FormIsSound (root_of steps.now) (length trace.old.path) (form_at steps.now this step.now) }
    ensures packs { Packs (form_events (root_of steps.now) (form_at steps.now this step.now) trace.old.path (data_of v.now)) w.old w.new trace.new.path trace.new.why result }
    ensures path { OnOk result (trace.new.path ≡ trace.old.path) }
{
    match &step.act {
        Act::Num(leaf) => put_number(leaf, v, w, &mut trace.why),
        Act::Octets(sizing) => put_octets(sizing, v, w, &mut trace.why),
        Act::Bits(sizing) => put_bits(sizing, v, w, &mut trace.why),
        Act::Text(leaf) => put_text(leaf, v, w, &mut trace.why),
        Act::Seq(home) => {
            let end = step.next as usize;
            pack_seq::<T, N, S, A>(steps, this + 1, end, home.items(), v, w, trace)
        }
        Act::List(sizing) => pack_list::<T, N, S, A>(steps, this + 1, sizing, v, w, trace),
        Act::Choice(cases) => pack_choice::<T, N, S, A>(steps, this, cases, v, w, trace),
        Act::Contained(sizing) => pack_contained::<T, N, S, A>(
            steps,
            this + 1,
            sizing,
            v,
            w,
            trace,
        ),
    }
}

// A node inside another, at a step from it.
#[cycle(pack)]
fn pack_child<'p, T, const N: usize, const S: usize, const A: usize>(
    steps: &'p Steps,
    this: usize,
    k: u32,
    v: &Value,
    w: &mut Writer<'_, 'p, N, S, A>,
    trace: &mut Trace,
) -> Result<(), Halted>
    requires made { IsMade steps.now }
    requires there { this < length steps.now }
    requires sound { IsSound (root_of steps.now) (suc (length trace.old.path)) (node_at steps.now this) }
    ensures packs { Packs (events (root_of steps.now) (node_at steps.now this) (trace.old.path ++ k ∷ []) (data_of v.now)) w.old w.new trace.new.path trace.new.why result }
    ensures path { OnOk result (trace.new.path ≡ trace.old.path) }
{
    trace.path.push(k);
    pack_step::<T, N, S, A>(steps, this, v, w, trace)?;
    trace.path.pop();
    Ok(())
}

#[cycle(pack)]
fn pack_seq<'p, T, const N: usize, const S: usize, const A: usize>(
    steps: &'p Steps,
    first: usize,
    end: usize,
    home: &[u32],
    v: &Value,
    w: &mut Writer<'_, 'p, N, S, A>,
    trace: &mut Trace,
) -> Result<(), Halted>
    requires made { IsMade steps.now }
    requires within { end ≤ length steps.now }
    requires sound { FormIsSound (root_of steps.now) (length trace.old.path) (seq (fields_at steps.now first end) home.now) }
    ensures packs { Packs (form_events (root_of steps.now) (seq (fields_at steps.now first end) home.now) trace.old.path (data_of v.now)) w.old w.new trace.new.path trace.new.why result }
    ensures path { OnOk result (trace.new.path ≡ trace.old.path) }
{
    match places_in(v) {
        Some(places) => pack_places::<T, N, S, A>(steps, first, end, home, places, w, trace),
        None => Ok(()),
    }
}

#[cycle(pack)]
fn pack_places<'p, T, const N: usize, const S: usize, const A: usize>(
    steps: &'p Steps,
    first: usize,
    end: usize,
    home: &[u32],
    places: &[Option<Value>],
    w: &mut Writer<'_, 'p, N, S, A>,
    trace: &mut Trace,
) -> Result<(), Halted>
    requires made { IsMade steps.now }
    requires within { end ≤ length steps.now }
    requires sound { FormIsSound (root_of steps.now) (length trace.old.path) (seq (fields_at steps.now first end) home.now) }
    ensures packs { Packs (form_events (root_of steps.now) (seq (fields_at steps.now first end) home.now) trace.old.path (record_of (places_view places.now))) w.old w.new trace.new.path trace.new.why result }
    ensures path { OnOk result (trace.new.path ≡ trace.old.path) }
{
    put_flags(steps, first, end, places, w, &mut trace.why)?;
    pack_fields::<T, N, S, A>(steps, first, end, places, w, trace)?;
    fill_home(home, w, &mut trace.why)
}

#[cycle(pack)]
fn pack_fields<'p, T, const N: usize, const S: usize, const A: usize>(
    steps: &'p Steps,
    first: usize,
    end: usize,
    places: &[Option<Value>],
    w: &mut Writer<'_, 'p, N, S, A>,
    trace: &mut Trace,
) -> Result<(), Halted>
    requires made { IsMade steps.now }
    requires within { end ≤ length steps.now }
    requires sound { FieldsAreSound (root_of steps.now) (suc (length trace.old.path)) (fields_at steps.now first end) }
    ensures packs { Packs (field_events (root_of steps.now) (fields_at steps.now first end) trace.old.path 0 (places_view places.now)) w.old w.new trace.new.path trace.new.why result }
    ensures path { OnOk result (trace.new.path ≡ trace.old.path) }
{
    let mut spot = Spot {
        step: first,
        k: 0,
        next: 0,
    };
    while spot.step < end {
        let run = run_at(steps, spot.step, end);
        match put_run(run, places, spot.next, w, &mut trace.why) {
            Some(next) => {
                let count = run.len();
                spot = Spot {
                    step: spot.step + count,
                    k: spot.k + count as u32,
                    next,
                };
            }
            None => {
                let step = at(steps, spot.step);
                match pack_field::<T, N, S, A>(
                    steps, spot.step, spot.k, places, spot.next, w, trace,
                ) {
                    Ok(Some(next)) => {
                        spot = Spot {
                            step: step.next as usize,
                            k: spot.k + 1,
                            next,
                        };
                    }
                    Ok(None) => return Ok(()),
                    Err(halted) => return Err(halted),
                }
            }
        }
    }
    Ok(())
}

// Field k of a SEQUENCE, where the place of the next component is this one. The answer is that of
// the component behind it. Where a component has no place there is none, and nothing is left to be
// written.
#[cycle(pack)]
fn pack_field<'p, T, const N: usize, const S: usize, const A: usize>(
    steps: &'p Steps,
    this: usize,
    k: u32,
    places: &[Option<Value>],
    next: usize,
    w: &mut Writer<'_, 'p, N, S, A>,
    trace: &mut Trace,
) -> Result<Option<usize>, Halted>
    requires made { IsMade steps.now }
    requires there { this < length steps.now }
    requires within { next ≤ length places.now }
    requires sound { (fs : Fields) × (step : StepData) × StepAt steps.now this step × FieldsAreSound (root_of steps.now) (suc (length trace.old.path)) (with_field (field_by step.place (node_at steps.now this)) fs) }
    ensures packs { (fs : Fields) (step : StepData) → StepAt steps.now this step → PacksTo (field_events (root_of steps.now) (with_field (field_by step.place (node_at steps.now this)) fs) trace.old.path k (places_view (drop next places.now))) (left_of (root_of steps.now) fs trace.old.path (suc k) places.now) w.old w.new trace.new.path trace.new.why result }
    ensures within { IfOk result (λ behind. IfSome behind (λ n. n ≤ length places.now)) }
    ensures path { OnOk result (trace.new.path ≡ trace.old.path) }
{
    let step = at(steps, this);
    match component_of(&step.place) {
        Some(component) => match places.get(next) {
            Some(place) => {
                pack_component::<T, N, S, A>(steps, this, component, k, place, w, trace)?;
                Ok(Some(next + 1))
            }
            None => Ok(None),
        },
        None => {
            let slot = inserted_slot(&step.place);
            put_inserted(steps, this, slot, w, &mut trace.why)?;
            Ok(Some(next))
        }
    }
}

// A component, which may be absent.
#[cycle(pack)]
fn pack_component<'p, T, const N: usize, const S: usize, const A: usize>(
    steps: &'p Steps,
    this: usize,
    component: Component<'p>,
    k: u32,
    place: &Option<Value>,
    w: &mut Writer<'_, 'p, N, S, A>,
    trace: &mut Trace,
) -> Result<(), Halted>
    requires made { IsMade steps.now }
    requires there { this < length steps.now }
    requires sound { IsSound (root_of steps.now) (suc (length trace.old.path)) (node_at steps.now this) }
    requires own { OwnIsNumber component.slot (node_at steps.now this) }
    ensures packs { Packs (place_events (root_of steps.now) (node_at steps.now this) component.entry.presence.now component.entry.slot (trace.old.path ++ k ∷ []) (option_map data_of place.now)) w.old w.new trace.new.path trace.new.why result }
    ensures path { OnOk result (trace.new.path ≡ trace.old.path) }
{
    match place {
        Some(v) => pack_there::<T, N, S, A>(steps, this, component, k, v, w, trace),
        None => put_absent(component.presence, k, w, trace),
    }
}

// A component that is there. What holds no others is put without a turn of the cycle.
#[cycle(pack)]
fn pack_there<'p, T, const N: usize, const S: usize, const A: usize>(
    steps: &'p Steps,
    this: usize,
    component: Component<'p>,
    k: u32,
    v: &Value,
    w: &mut Writer<'_, 'p, N, S, A>,
    trace: &mut Trace,
) -> Result<(), Halted>
    requires made { IsMade steps.now }
    requires there { this < length steps.now }
    requires sound { IsSound (root_of steps.now) (suc (length trace.old.path)) (node_at steps.now this) }
    requires own { OwnIsNumber component.slot (node_at steps.now this) }
    ensures packs { Packs (place_events (root_of steps.now) (node_at steps.now this) component.entry.presence.now component.entry.slot (trace.old.path ++ k ∷ []) (Some (data_of v.now))) w.old w.new trace.new.path trace.new.why result }
    ensures path { OnOk result (trace.new.path ≡ trace.old.path) }
{
    let step = at(steps, this);
    match number_leaf(&step.act) {
        Some(leaf) => put_numbered(step.align, leaf, component, k, v, w, trace),
        None => pack_other::<T, N, S, A>(steps, this, component.presence, k, v, w, trace),
    }
}

// A component that is there and is no number: it is a string, or holds others.
#[cycle(pack)]
fn pack_other<'p, T, const N: usize, const S: usize, const A: usize>(
    steps: &'p Steps,
    this: usize,
    presence: &Presence,
    k: u32,
    v: &Value,
    w: &mut Writer<'_, 'p, N, S, A>,
    trace: &mut Trace,
) -> Result<(), Halted>
    requires made { IsMade steps.now }
    requires there { this < length steps.now }
    requires sound { IsSound (root_of steps.now) (suc (length trace.old.path)) (node_at steps.now this) }
    ensures packs { Packs (presence_events (trace.old.path ++ k ∷ []) true presence.now ++ events (root_of steps.now) (node_at steps.now this) (trace.old.path ++ k ∷ []) (data_of v.now)) w.old w.new trace.new.path trace.new.why result }
    ensures path { OnOk result (trace.new.path ≡ trace.old.path) }
{
    let step = at(steps, this);
    if is_string(&step.act) {
        put_string(step, presence, k, v, w, trace)
    } else {
        pack_inside::<T, N, S, A>(steps, this, presence, k, v, w, trace)
    }
}

// A component that is there, by a turn of the cycle.
#[cycle(pack)]
fn pack_inside<'p, T, const N: usize, const S: usize, const A: usize>(
    steps: &'p Steps,
    this: usize,
    presence: &Presence,
    k: u32,
    v: &Value,
    w: &mut Writer<'_, 'p, N, S, A>,
    trace: &mut Trace,
) -> Result<(), Halted>
    requires made { IsMade steps.now }
    requires there { this < length steps.now }
    requires sound { IsSound (root_of steps.now) (suc (length trace.old.path)) (node_at steps.now this) }
    ensures packs { Packs (presence_events (trace.old.path ++ k ∷ []) true presence.now ++ events (root_of steps.now) (node_at steps.now this) (trace.old.path ++ k ∷ []) (data_of v.now)) w.old w.new trace.new.path trace.new.why result }
    ensures path { OnOk result (trace.new.path ≡ trace.old.path) }
{
    trace.path.push(k);
    ask_presence(presence, true, w, &mut trace.why)?;
    pack_step::<T, N, S, A>(steps, this, v, w, trace)?;
    trace.path.pop();
    Ok(())
}

#[cycle(pack)]
fn pack_list<'p, T, const N: usize, const S: usize, const A: usize>(
    steps: &'p Steps,
    this: usize,
    sizing: &Sizing,
    v: &Value,
    w: &mut Writer<'_, 'p, N, S, A>,
    trace: &mut Trace,
) -> Result<(), Halted>
    requires made { IsMade steps.now }
    requires there { this < length steps.now }
    requires sound { FormIsSound (root_of steps.now) (length trace.old.path) (list sizing.now (node_at steps.now this)) }
    ensures packs { Packs (form_events (root_of steps.now) (list sizing.now (node_at steps.now this)) trace.old.path (data_of v.now)) w.old w.new trace.new.path trace.new.why result }
    ensures path { OnOk result (trace.new.path ≡ trace.old.path) }
{
    match elements_in(v) {
        Some(elements) => pack_elements::<T, N, S, A>(steps, this, sizing, elements, w, trace),
        None => Ok(()),
    }
}

#[cycle(pack)]
fn pack_elements<'p, T, const N: usize, const S: usize, const A: usize>(
    steps: &'p Steps,
    this: usize,
    sizing: &Sizing,
    elements: &[Value],
    w: &mut Writer<'_, 'p, N, S, A>,
    trace: &mut Trace,
) -> Result<(), Halted>
    requires made { IsMade steps.now }
    requires there { this < length steps.now }
    requires sound { FormIsSound (root_of steps.now) (length trace.old.path) (list sizing.now (node_at steps.now this)) }
    ensures packs { Packs (form_events (root_of steps.now) (list sizing.now (node_at steps.now this)) trace.old.path (list_of (elements_view elements.now))) w.old w.new trace.new.path trace.new.why result }
    ensures path { OnOk result (trace.new.path ≡ trace.old.path) }
{
    let n = elements.len() as u64;
    w.size(sizing, n, &mut trace.why)?;
    ask_size(&sizing.rule, n, w, &mut trace.why)?;
    pack_run::<T, N, S, A>(steps, this, elements, w, trace)?;
    put_end(&sizing.rule, w, &mut trace.why)
}

#[cycle(pack)]
fn pack_run<'p, T, const N: usize, const S: usize, const A: usize>(
    steps: &'p Steps,
    this: usize,
    elements: &[Value],
    w: &mut Writer<'_, 'p, N, S, A>,
    trace: &mut Trace,
) -> Result<(), Halted>
    requires made { IsMade steps.now }
    requires there { this < length steps.now }
    requires few { length elements.now ≤ MOST_SIZE }
    requires sound { IsSound (root_of steps.now) (suc (length trace.old.path)) (node_at steps.now this) }
    ensures packs { Packs (run_events (λ k d. events (root_of steps.now) (node_at steps.now this) (trace.old.path ++ k ∷ []) d) 0 (elements_view elements.now)) w.old w.new trace.new.path trace.new.why result }
    ensures path { OnOk result (trace.new.path ≡ trace.old.path) }
{
    let mut k = 0u32;
    for v in elements {
        match pack_child::<T, N, S, A>(steps, this, k, v, w, trace) {
            Ok(()) => k += 1,
            Err(halted) => return Err(halted),
        }
    }
    Ok(())
}

#[cycle(pack)]
fn pack_choice<'p, T, const N: usize, const S: usize, const A: usize>(
    steps: &'p Steps,
    this: usize,
    cases: &'p Cases,
    v: &Value,
    w: &mut Writer<'_, 'p, N, S, A>,
    trace: &mut Trace,
) -> Result<(), Halted>
    requires made { IsMade steps.now }
    requires there { this < length steps.now }
    requires is { (step : StepData) → StepAt steps.now this step → step.act ≡ ChoiceAct cases.now }
    requires sound { (step : StepData) → StepAt steps.now this step → FormIsSound (root_of steps.now) (length trace.old.path) (form_at steps.now this step) }
    ensures packs { (step : StepData) → StepAt steps.now this step → Packs (form_events (root_of steps.now) (form_at steps.now this step) trace.old.path (data_of v.now)) w.old w.new trace.new.path trace.new.why result }
    ensures path { OnOk result (trace.new.path ≡ trace.old.path) }
{
    match case_in(v) {
        Some((i, inside)) => pack_chosen::<T, N, S, A>(steps, this, cases, i, inside, w, trace),
        None => Ok(()),
    }
}

// The alternative of index i of the CHOICE of a step.
#[cycle(pack)]
fn pack_chosen<'p, T, const N: usize, const S: usize, const A: usize>(
    steps: &'p Steps,
    this: usize,
    cases: &'p Cases,
    i: u32,
    v: &Value,
    w: &mut Writer<'_, 'p, N, S, A>,
    trace: &mut Trace,
) -> Result<(), Halted>
    requires made { IsMade steps.now }
    requires there { this < length steps.now }
    requires is { (step : StepData) → StepAt steps.now this step → step.act ≡ ChoiceAct cases.now }
    requires sound { (step : StepData) → StepAt steps.now this step → FormIsSound (root_of steps.now) (length trace.old.path) (form_at steps.now this step) }
    ensures packs { (step : StepData) → StepAt steps.now this step → Packs (form_events (root_of steps.now) (form_at steps.now this step) trace.old.path (alt i (data_of v.now))) w.old w.new trace.new.path trace.new.why result }
    ensures path { OnOk result (trace.new.path ≡ trace.old.path) }
{
    put_index(&cases.rule, i, w, &mut trace.why)?;
    match case_of(cases.numbers.items(), i) {
        Some(case) => pack_case::<T, N, S, A>(steps, case, cases.rule, i, v, w, trace),
        None => Ok(()),
    }
}

#[cycle(pack)]
fn pack_case<'p, T, const N: usize, const S: usize, const A: usize>(
    steps: &'p Steps,
    this: usize,
    rule: ChoiceRule,
    i: u32,
    v: &Value,
    w: &mut Writer<'_, 'p, N, S, A>,
    trace: &mut Trace,
) -> Result<(), Halted>
    requires made { IsMade steps.now }
    requires there { this < length steps.now }
    requires sound { IsSound (root_of steps.now) (suc (length trace.old.path)) (node_at steps.now this) }
    requires item { (step : StepData) → StepAt steps.now this step → IsItemed (root_of steps.now) rule step.place }
    ensures packs { (step : StepData) → StepAt steps.now this step → Packs (rule_events (root_of steps.now) trace.old.path i rule (name_in step.place) (tests_in step.place) ++ events (root_of steps.now) (node_at steps.now this) (trace.old.path ++ i ∷ []) (data_of v.now)) w.old w.new trace.new.path trace.new.why result }
    ensures path { OnOk result (trace.new.path ≡ trace.old.path) }
{
    let step = at(steps, this);
    ask_item(&rule, &step.place, w, &mut trace.why)?;
    trace.path.push(i);
    ask_case(&rule, &step.place, w, &mut trace.why)?;
    pack_step::<T, N, S, A>(steps, this, v, w, trace)?;
    trace.path.pop();
    Ok(())
}

#[cycle(pack)]
fn pack_contained<'p, T, const N: usize, const S: usize, const A: usize>(
    steps: &'p Steps,
    this: usize,
    sizing: &Sizing,
    v: &Value,
    w: &mut Writer<'_, 'p, N, S, A>,
    trace: &mut Trace,
) -> Result<(), Halted>
    requires made { IsMade steps.now }
    requires there { this < length steps.now }
    requires sound { FormIsSound (root_of steps.now) (length trace.old.path) (contained sizing.now (node_at steps.now this)) }
    ensures packs { Packs (form_events (root_of steps.now) (contained sizing.now (node_at steps.now this)) trace.old.path (data_of v.now)) w.old w.new trace.new.path trace.new.why result }
    ensures path { OnOk result (trace.new.path ≡ trace.old.path) }
{
    w.enter(&sizing.rule, &mut trace.why)?;
    pack_child::<T, N, S, A>(steps, this, 0, v, w, trace)?;
    w.align(8, &mut trace.why)?;
    w.close(sizing, &mut trace.why)
}
