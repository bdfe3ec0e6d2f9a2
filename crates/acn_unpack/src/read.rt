//! The walk over steps.

ghost use Rattle.std.specs.Prelude.{◌≡◌, ◌<◌, ◌≤◌, ◌+◌, ℕ, suc, ◌∷◌, [], ◌++◌, List, Bool, ℤ, Option, None, IfOk, IfErr, OnOk, length};
ghost use Rattle.acn_grammar.specs.Fails.{presence_count};
ghost use Rattle.acn_grammar.specs.Grammar.{Grammar, Fields, Data, component, inserted, no_fields, list, choice, contained, seq};
ghost use Rattle.acn_grammar.specs.Interval.{size_of};
ghost use Rattle.acn_grammar.specs.ItemsNamed.{ItemsNamed, FormItemsNamed, FieldsItemsNamed, AlternativesItemsNamed};
ghost use Rattle.acn_grammar.specs.Length.{number_of};
ghost use Rattle.acn_grammar.specs.View.{with_field};
ghost use Rattle.acn_grammar.specs.declared.limits.TheConstants.{MOST_OPEN_SLOTS};
ghost use Rattle.acn_grammar.specs.declared.node.ChoiceRule.TheVariants.{Item};
ghost use Rattle.acn_grammar.specs.declared.node.SizeRule.TheVariants.{Ended};
ghost use Rattle.acn_num.specs.Ranges.{greatest};
ghost use Rattle.acn_num.specs.declared.limits.TheConstants.{MOST_SIZE};
ghost use Rattle.acn_plan.specs.Back.{StepAt, root_of, node_at, form_at, fields_at, cases_at, case_items, case_places, field_by};
ghost use Rattle.acn_plan.specs.Made.{IsMade};
ghost use Rattle.acn_reads.specs.Decoded.{Fine, NodeStands, FormStands, FieldsStand, InnerStands, RunTurn, TailStops, counted, ended, NodeRead, FormRead, NodeStops, FormStops, Turn, FieldsStop};
ghost use Rattle.acn_reads.specs.Ends.{EndedRead};
ghost use Rattle.acn_reads.specs.Steps.{noted_by};
ghost use Rattle.acn_unpack.specs.Keeps.{Halts, MayLack, OwnStands};
ghost use Rattle.acn_unpack.specs.Items.{ItemsAre};

use crate::choices::pick;
use crate::keep::Keep;
use crate::leaves::{read_leaf, read_number};
use crate::slots::note;
use crate::steps::{act_leaf, at, case_of, counts_of, number_leaf};
use acn_bits::ReadCursor;
use acn_grammar::{Pattern, Presence, ReadFault, Reason, Sizing};
use acn_num::Path;
use acn_open_slots::SlotTable;
use acn_plan::{Act, Cases, Place, Step};
use acn_reads::{
    Stop, is_ended, is_there, most_of, named, no_end, pad, pass_end, pattern_of, read_code,
    read_size, stands,
};

/// What is kept of the node of a step, at a path.
#[cycle(read)]
pub fn read_node<K: Keep, T: SlotTable>(
    keep: &K,
    steps: &[Step],
    this: usize,
    cur: &mut ReadCursor<'_>,
    slots: &mut T,
    path: &mut Path,
    inside: bool,
) -> Result<K::Kept, Stop>
    requires made { IsMade steps.now }
    requires there { this < length steps.now }
    requires ready { (around : List ℕ) × NodeStands (root_of steps.now) (length path.old) (node_at steps.now this) (T.env slots.old) around }
    requires named { ItemsNamed (node_at steps.now this) }
    requires fine { Fine (root_of steps.now) (T.env slots.old) }
    ensures read { IfOk result (λ kept. (d : Data) × K.says kept d × NodeRead (root_of steps.now) (node_at steps.now this) d (T.env slots.old) (T.env slots.new) cur.old cur.new) }
    ensures fails { IfErr result (λ e. Halts (MayLack K.takes T.places) e (NodeStops (root_of steps.now) (node_at steps.now this) inside path.old (T.env slots.old) cur.old path.new)) }
    ensures path { OnOk result (path.new ≡ path.old) }
{
    let step = at(steps, this);
    let from = cur.reach();
    match pad(cur, step.align) {
        Ok(()) => read_body(keep, steps, this, step, cur, slots, path, inside, from),
        Err(_) => Err(Stop::Fails {
            reason: named(inside, ReadFault::Short),
            at: from,
        }),
    }
}

#[cycle(read)]
fn read_body<K: Keep, T: SlotTable>(
    keep: &K,
    steps: &[Step],
    this: usize,
    step: &Step,
    cur: &mut ReadCursor<'_>,
    slots: &mut T,
    path: &mut Path,
    inside: bool,
    from: u64,
) -> Result<K::Kept, Stop>
    requires made { IsMade steps.now }
    requires there { this < length steps.now }
    requires is { StepAt steps.now this step.now }
    requires ready { (around : List ℕ) × FormStands (root_of steps.now) (length path.old) (form_at steps.now this step.now) (T.env slots.old) around }
    requires named { FormItemsNamed (form_at steps.now this step.now) }
    requires fine { Fine (root_of steps.now) (T.env slots.old) }
    ensures read { IfOk result (λ kept. (d : Data) × K.says kept d × FormRead (root_of steps.now) (form_at steps.now this step.now) d (T.env slots.old) (T.env slots.new) cur.old cur.new) }
    ensures fails { IfErr result (λ e. Halts (MayLack K.takes T.places) e (FormStops (root_of steps.now) (form_at steps.now this step.now) (record { path = path.old; place = from; inside = inside }) cur.old.origin (T.env slots.old) cur.old path.new)) }
    ensures path { OnOk result (path.new ≡ path.old) }
{
    match &step.act {
        Act::Num(leaf) => read_leaf(keep, cur, leaf, inside, from),
        Act::Seq(home) => read_seq(
            keep,
            steps,
            this + 1,
            step.next as usize,
            home.items(),
            cur,
            slots,
            path,
            inside,
            from,
        ),
        Act::Octets(sizing) => keep.octets(cur, sizing, slots.items(), inside, from),
        Act::Bits(sizing) => keep.bits(cur, sizing, slots.items(), inside, from),
        Act::Text(leaf) => keep.text(cur, leaf, slots.items(), inside, from),
        Act::List(sizing) => {
            read_list(
                keep,
                steps,
                this + 1,
                sizing,
                cur,
                slots,
                path,
                inside,
                from,
            )
        }
        Act::Choice(cases) => read_choice(
            keep,
            steps,
            this + 1,
            step.next as usize,
            cases,
            cur,
            slots,
            path,
            inside,
            from,
        ),
        Act::Contained(sizing) => {
            read_contained(
                keep,
                steps,
                this + 1,
                sizing,
                cur,
                slots,
                path,
                inside,
                from,
            )
        }
    }
}

#[cycle(read)]
fn read_seq<K: Keep, T: SlotTable>(
    keep: &K,
    steps: &[Step],
    first: usize,
    end: usize,
    home: &[u32],
    cur: &mut ReadCursor<'_>,
    slots: &mut T,
    path: &mut Path,
    inside: bool,
    from: u64,
) -> Result<K::Kept, Stop>
    requires made { IsMade steps.now }
    requires within { end ≤ length steps.now }
    requires ready { (around : List ℕ) × FormStands (root_of steps.now) (length path.old) (seq (fields_at steps.now first end) home.now) (T.env slots.old) around }
    requires named { FormItemsNamed (seq (fields_at steps.now first end) home.now) }
    requires fine { Fine (root_of steps.now) (T.env slots.old) }
    ensures read { IfOk result (λ kept. (d : Data) × K.says kept d × FormRead (root_of steps.now) (seq (fields_at steps.now first end) home.now) d (T.env slots.old) (T.env slots.new) cur.old cur.new) }
    ensures fails { IfErr result (λ e. Halts (MayLack K.takes T.places) e (FormStops (root_of steps.now) (seq (fields_at steps.now first end) home.now) (record { path = path.old; place = from; inside = inside }) cur.old.origin (T.env slots.old) cur.old path.new)) }
    ensures path { OnOk result (path.new ≡ path.old) }
{
    let counts = counts_of(steps, first, end);
    match cur.window(counts.bits) {
        Ok(window) => match keep.no_places(counts.places) {
            Ok(none) => {
                let mut flags = window;
                let mut places = none;
                match read_fields(
                    keep,
                    steps,
                    first,
                    end,
                    &mut flags,
                    cur,
                    slots,
                    path,
                    inside,
                    &mut places,
                ) {
                    Ok(()) => {
                        slots.forget(home);
                        Ok(keep.sequence(places))
                    }
                    Err(stop) => Err(stop),
                }
            }
            Err(_) => Err(Stop::NoMemory),
        },
        Err(_) => Err(Stop::Fails {
            reason: named(inside, ReadFault::Short),
            at: from,
        }),
    }
}

#[cycle(read)]
fn read_fields<K: Keep, T: SlotTable>(
    keep: &K,
    steps: &[Step],
    first: usize,
    end: usize,
    flags: &mut ReadCursor<'_>,
    cur: &mut ReadCursor<'_>,
    slots: &mut T,
    path: &mut Path,
    inside: bool,
    places: &mut K::Places,
) -> Result<(), Stop>
    requires made { IsMade steps.now }
    requires within { end ≤ length steps.now }
    requires bits { presence_count (fields_at steps.now first end) ≡ length flags.old.rest }
    requires ready { (around : List ℕ) × FieldsStand (root_of steps.now) (suc (length path.old)) (fields_at steps.now first end) (T.env slots.old) around × (length around ≤ MOST_OPEN_SLOTS) }
    requires named { FieldsItemsNamed (fields_at steps.now first end) }
    requires fine { Fine (root_of steps.now) (T.env slots.old) }
    requires none { K.places_say places.old [] }
    ensures read { OnOk result ((ds : List (Option Data)) × K.places_say places.new ds × (count : ℕ) × ((place : ℕ) → Turn (root_of steps.now) (record { path = path.old; place = place; inside = inside }) cur.old.origin 0 count (fields_at steps.now first end) no_fields ds (T.env slots.old) (T.env slots.new) flags.old.rest flags.new.rest cur.old cur.new)) }
    ensures fails { IfErr result (λ e. Halts (MayLack K.takes T.places) e (λ r at. (place : ℕ) → FieldsStop (root_of steps.now) (fields_at steps.now first end) flags.old.rest (record { path = path.old; place = place; inside = inside }) cur.old.origin 0 (T.env slots.old) cur.old path.new r at)) }
    ensures path { OnOk result (path.new ≡ path.old) }
{
    let mut this = first;
    let mut k = 0u32;
    while this < end {
        let step = at(steps, this);
        match read_field(
            keep, steps, this, step, flags, cur, slots, path, inside, k, places,
        ) {
            Ok(()) => {
                k += 1;
                this = step.next as usize;
            }
            Err(stop) => return Err(stop),
        }
    }
    Ok(())
}

#[inline(always)]
#[cycle(read)]
fn read_field<K: Keep, T: SlotTable>(
    keep: &K,
    steps: &[Step],
    this: usize,
    step: &Step,
    flags: &mut ReadCursor<'_>,
    cur: &mut ReadCursor<'_>,
    slots: &mut T,
    path: &mut Path,
    inside: bool,
    k: u32,
    places: &mut K::Places,
) -> Result<(), Stop>
    requires made { IsMade steps.now }
    requires there { this < length steps.now }
    requires is { StepAt steps.now this step.now }
    requires ready { (around : List ℕ) × (fs : Fields) × FieldsStand (root_of steps.now) (suc (length path.old)) (with_field (field_by step.now.place (node_at steps.now this)) fs) (T.env slots.old) around × (presence_count (with_field (field_by step.now.place (node_at steps.now this)) fs) ≡ length flags.old.rest) × (length around ≤ MOST_OPEN_SLOTS) }
    requires named { ItemsNamed (node_at steps.now this) }
    requires fine { Fine (root_of steps.now) (T.env slots.old) }
    ensures read { OnOk result ((done : List (Option Data)) × ((before : List (Option Data)) → K.places_say places.old before → K.places_say places.new (before ++ done)) × ((place : ℕ) (fs : Fields) → Turn (root_of steps.now) (record { path = path.old; place = place; inside = inside }) cur.old.origin k (suc k) (with_field (field_by step.now.place (node_at steps.now this)) fs) fs done (T.env slots.old) (T.env slots.new) flags.old.rest flags.new.rest cur.old cur.new)) }
    ensures fails { IfErr result (λ e. Halts (MayLack K.takes T.places) e (λ r at. (place : ℕ) (fs : Fields) → FieldsStop (root_of steps.now) (with_field (field_by step.now.place (node_at steps.now this)) fs) flags.old.rest (record { path = path.old; place = place; inside = inside }) cur.old.origin k (T.env slots.old) cur.old path.new r at)) }
    ensures path { OnOk result (path.new ≡ path.old) }
{
    match &step.place {
        Place::Component { presence, slot, .. } => read_component(
            keep, steps, this, step, presence, *slot, flags, cur, slots, path, inside, k, places,
        ),
        Place::Inserted { slot, .. } => {
            read_inserted(steps, this, step, *slot, cur, slots, path, inside, k)
        }
        Place::Root => read_inserted(steps, this, step, None, cur, slots, path, inside, k),
        Place::Alternative { .. } => {
            read_inserted(steps, this, step, None, cur, slots, path, inside, k)
        }
        Place::Element => read_inserted(steps, this, step, None, cur, slots, path, inside, k),
        Place::Content => read_inserted(steps, this, step, None, cur, slots, path, inside, k),
    }
}

// Reads field k of a SEQUENCE, an inserted one, and notes its number where it says a slot's.
fn read_inserted<T: SlotTable>(
    steps: &[Step],
    this: usize,
    step: &Step,
    slot: Option<u32>,
    cur: &mut ReadCursor<'_>,
    slots: &mut T,
    path: &mut Path,
    inside: bool,
    k: u32,
) -> Result<(), Stop>
    requires is { StepAt steps.now this step.now }
    requires ready { (around : List ℕ) × (fs : Fields) × FieldsStand (root_of steps.now) (suc (length path.old)) (inserted [] (node_at steps.now this) slot fs) (T.env slots.old) around × (length around ≤ MOST_OPEN_SLOTS) }
    requires named { ItemsNamed (node_at steps.now this) }
    requires fine { Fine (root_of steps.now) (T.env slots.old) }
    ensures read { OnOk result ((place : ℕ) (name : List ℕ) (fs : Fields) (flags : List Bool) → Turn (root_of steps.now) (record { path = path.old; place = place; inside = inside }) cur.old.origin k (suc k) (inserted name (node_at steps.now this) slot fs) fs [] (T.env slots.old) (T.env slots.new) flags flags cur.old cur.new) }
    ensures fails { IfErr result (λ e. Halts (T.places < MOST_OPEN_SLOTS) e (λ r at. (place : ℕ) (name : List ℕ) (fs : Fields) (flags : List Bool) → FieldsStop (root_of steps.now) (inserted name (node_at steps.now this) slot fs) flags (record { path = path.old; place = place; inside = inside }) cur.old.origin k (T.env slots.old) cur.old path.new r at)) }
    ensures path { OnOk result (path.new ≡ path.old) }
{
    match read_code(cur, step.align, act_leaf(steps, this, step), inside) {
        Ok(x) => match note(slots, slot, &x) {
            Ok(()) => Ok(()),
            Err(stop) => Err(stop),
        },
        Err(stop) => {
            path.push(k);
            Err(stop)
        }
    }
}

#[cycle(read)]
fn read_component<K: Keep, T: SlotTable>(
    keep: &K,
    steps: &[Step],
    this: usize,
    step: &Step,
    presence: &Presence,
    slot: Option<u32>,
    flags: &mut ReadCursor<'_>,
    cur: &mut ReadCursor<'_>,
    slots: &mut T,
    path: &mut Path,
    inside: bool,
    k: u32,
    places: &mut K::Places,
) -> Result<(), Stop>
    requires made { IsMade steps.now }
    requires there { this < length steps.now }
    requires is { StepAt steps.now this step.now }
    requires ready { (around : List ℕ) × (fs : Fields) × FieldsStand (root_of steps.now) (suc (length path.old)) (component [] (node_at steps.now this) presence.now None slot fs) (T.env slots.old) around × (presence_count (component [] (node_at steps.now this) presence.now None slot fs) ≡ length flags.old.rest) × (length around ≤ MOST_OPEN_SLOTS) }
    requires named { ItemsNamed (node_at steps.now this) }
    requires fine { Fine (root_of steps.now) (T.env slots.old) }
    ensures read { OnOk result ((d : Option Data) × ((before : List (Option Data)) → K.places_say places.old before → K.places_say places.new (before ++ d ∷ [])) × ((place : ℕ) (name : List ℕ) (default : Option (List ℕ)) (fs : Fields) → Turn (root_of steps.now) (record { path = path.old; place = place; inside = inside }) cur.old.origin k (suc k) (component name (node_at steps.now this) presence.now default slot fs) fs (d ∷ []) (T.env slots.old) (T.env slots.new) flags.old.rest flags.new.rest cur.old cur.new)) }
    ensures fails { IfErr result (λ e. Halts (MayLack K.takes T.places) e (λ r at. (place : ℕ) (name : List ℕ) (default : Option (List ℕ)) (fs : Fields) → FieldsStop (root_of steps.now) (component name (node_at steps.now this) presence.now default slot fs) flags.old.rest (record { path = path.old; place = place; inside = inside }) cur.old.origin k (T.env slots.old) cur.old path.new r at)) }
    ensures path { OnOk result (path.new ≡ path.old) }
{
    if is_there(presence, flags, slots.items()) {
        match read_present(keep, steps, this, step, slot, k, cur, slots, path, inside) {
            Ok(kept) => match keep.add_component(places, kept) {
                Ok(()) => Ok(()),
                Err(_) => Err(Stop::NoMemory),
            },
            Err(stop) => Err(stop),
        }
    } else {
        match keep.add_absent(places) {
            Ok(()) => Ok(()),
            Err(_) => Err(Stop::NoMemory),
        }
    }
}

// A component that is there, whose number is noted where it is a slot's. For a number no walk is begun, since nothing stands inside it.
#[cycle(read)]
fn read_present<K: Keep, T: SlotTable>(
    keep: &K,
    steps: &[Step],
    this: usize,
    step: &Step,
    slot: Option<u32>,
    k: u32,
    cur: &mut ReadCursor<'_>,
    slots: &mut T,
    path: &mut Path,
    inside: bool,
) -> Result<K::Kept, Stop>
    requires made { IsMade steps.now }
    requires there { this < length steps.now }
    requires is { StepAt steps.now this step.now }
    requires ready { (around : List ℕ) × OwnStands (root_of steps.now) (suc (length path.old)) (node_at steps.now this) slot (T.env slots.old) around }
    requires named { ItemsNamed (node_at steps.now this) }
    requires fine { Fine (root_of steps.now) (T.env slots.old) }
    ensures read { IfOk result (λ kept. (d : Data) × K.says kept d × (t : List (ℕ × ℤ)) × ((T.env slots.new) ≡ noted_by slot (number_of d) t) × NodeRead (root_of steps.now) (node_at steps.now this) d (T.env slots.old) t cur.old cur.new) }
    ensures fails { IfErr result (λ e. Halts (MayLack K.takes T.places) e (NodeStops (root_of steps.now) (node_at steps.now this) inside (path.old ++ k ∷ []) (T.env slots.old) cur.old path.new)) }
    ensures path { OnOk result (path.new ≡ path.old) }
{
    match number_leaf(&step.act) {
        Some(leaf) => { read_number(keep, step.align, leaf, slot, cur, slots, path, inside, k) }
        None => read_child(keep, steps, this, k, cur, slots, path, inside),
    }
}

// A node inside another, at a step from it.
#[cycle(read)]
fn read_child<K: Keep, T: SlotTable>(
    keep: &K,
    steps: &[Step],
    this: usize,
    k: u32,
    cur: &mut ReadCursor<'_>,
    slots: &mut T,
    path: &mut Path,
    inside: bool,
) -> Result<K::Kept, Stop>
    requires made { IsMade steps.now }
    requires there { this < length steps.now }
    requires ready { (around : List ℕ) × NodeStands (root_of steps.now) (suc (length path.old)) (node_at steps.now this) (T.env slots.old) around }
    requires named { ItemsNamed (node_at steps.now this) }
    requires fine { Fine (root_of steps.now) (T.env slots.old) }
    ensures read { IfOk result (λ kept. (d : Data) × K.says kept d × NodeRead (root_of steps.now) (node_at steps.now this) d (T.env slots.old) (T.env slots.new) cur.old cur.new) }
    ensures fails { IfErr result (λ e. Halts (MayLack K.takes T.places) e (NodeStops (root_of steps.now) (node_at steps.now this) inside (path.old ++ k ∷ []) (T.env slots.old) cur.old path.new)) }
    ensures path { OnOk result (path.new ≡ path.old) }
{
    path.push(k);
    match read_node(keep, steps, this, cur, slots, path, inside) {
        Ok(kept) => {
            path.pop();
            Ok(kept)
        }
        Err(stop) => Err(stop),
    }
}

#[cycle(read)]
fn read_list<K: Keep, T: SlotTable>(
    keep: &K,
    steps: &[Step],
    this: usize,
    sizing: &Sizing,
    cur: &mut ReadCursor<'_>,
    slots: &mut T,
    path: &mut Path,
    inside: bool,
    from: u64,
) -> Result<K::Kept, Stop>
    requires made { IsMade steps.now }
    requires there { this < length steps.now }
    requires ready { (around : List ℕ) × FormStands (root_of steps.now) (length path.old) (list sizing.now (node_at steps.now this)) (T.env slots.old) around }
    requires named { ItemsNamed (node_at steps.now this) }
    requires fine { Fine (root_of steps.now) (T.env slots.old) }
    ensures read { IfOk result (λ kept. (d : Data) × K.says kept d × FormRead (root_of steps.now) (list sizing.now (node_at steps.now this)) d (T.env slots.old) (T.env slots.new) cur.old cur.new) }
    ensures fails { IfErr result (λ e. Halts (MayLack K.takes T.places) e (FormStops (root_of steps.now) (list sizing.now (node_at steps.now this)) (record { path = path.old; place = from; inside = inside }) cur.old.origin (T.env slots.old) cur.old path.new)) }
    ensures path { OnOk result (path.new ≡ path.old) }
{
    if is_ended(&sizing.rule) {
        return read_ended(keep, steps, this, sizing, cur, slots, path, inside, from);
    }
    match read_size(cur, sizing, slots.items(), inside, from) {
        Ok(n) => match read_run(keep, steps, this, n, cur, slots, path, inside) {
            Ok(elements) => Ok(keep.list(elements)),
            Err(stop) => Err(stop),
        },
        Err(stop) => Err(stop),
    }
}

// So many elements.
#[cycle(read)]
fn read_run<K: Keep, T: SlotTable>(
    keep: &K,
    steps: &[Step],
    this: usize,
    n: u64,
    cur: &mut ReadCursor<'_>,
    slots: &mut T,
    path: &mut Path,
    inside: bool,
) -> Result<K::Elements, Stop>
    requires made { IsMade steps.now }
    requires there { this < length steps.now }
    requires few { n ≤ MOST_SIZE }
    requires ready { (around : List ℕ) × InnerStands (root_of steps.now) (suc (length path.old)) (node_at steps.now this) (T.env slots.old) around }
    requires named { ItemsNamed (node_at steps.now this) }
    requires fine { Fine (root_of steps.now) (T.env slots.old) }
    ensures read { IfOk result (λ elements. (ds : List Data) × K.elements_say elements ds × (length ds ≡ n) × ((place : ℕ) → RunTurn (root_of steps.now) (record { path = path.old; place = place; inside = inside }) cur.old.origin (node_at steps.now this) 0 ds (T.env slots.old) (T.env slots.new) cur.old cur.new)) }
    ensures fails { IfErr result (λ e. Halts (MayLack K.takes T.places) e (λ r at. (place : ℕ) → TailStops (root_of steps.now) counted (record { path = path.old; place = place; inside = inside }) cur.old.origin (node_at steps.now this) n 0 (T.env slots.old) cur.old path.new r at)) }
    ensures path { OnOk result (path.new ≡ path.old) }
{
    let mut elements = keep.no_elements();
    for i in 0..n {
        match read_child(keep, steps, this, i as u32, cur, slots, path, inside) {
            Ok(kept) => match keep.add_element(&mut elements, kept) {
                Ok(()) => {}
                Err(_) => return Err(Stop::NoMemory),
            },
            Err(stop) => return Err(stop),
        }
    }
    Ok(elements)
}

#[cycle(read)]
fn read_contained<K: Keep, T: SlotTable>(
    keep: &K,
    steps: &[Step],
    this: usize,
    sizing: &Sizing,
    cur: &mut ReadCursor<'_>,
    slots: &mut T,
    path: &mut Path,
    inside: bool,
    from: u64,
) -> Result<K::Kept, Stop>
    requires made { IsMade steps.now }
    requires there { this < length steps.now }
    requires ready { (around : List ℕ) × FormStands (root_of steps.now) (length path.old) (contained sizing.now (node_at steps.now this)) (T.env slots.old) around }
    requires named { ItemsNamed (node_at steps.now this) }
    requires fine { Fine (root_of steps.now) (T.env slots.old) }
    ensures read { IfOk result (λ kept. (d : Data) × K.says kept d × FormRead (root_of steps.now) (contained sizing.now (node_at steps.now this)) d (T.env slots.old) (T.env slots.new) cur.old cur.new) }
    ensures fails { IfErr result (λ e. Halts (MayLack K.takes T.places) e (FormStops (root_of steps.now) (contained sizing.now (node_at steps.now this)) (record { path = path.old; place = from; inside = inside }) cur.old.origin (T.env slots.old) cur.old path.new)) }
    ensures path { OnOk result (path.new ≡ path.old) }
{
    match read_size(cur, sizing, slots.items(), inside, from) {
        Ok(n) => match cur.window(8 * n) {
            Ok(window) => {
                let mut window = window;
                match read_child(keep, steps, this, 0, &mut window, slots, path, true) {
                    Ok(kept) => {
                        if window.left() < 8 {
                            Ok(kept)
                        } else {
                            Err(Stop::Fails {
                                reason: Reason::ContentSize {
                                    octets: n,
                                    used: window.at(),
                                },
                                at: from,
                            })
                        }
                    }
                    Err(stop) => Err(stop),
                }
            }
            Err(_) => Err(Stop::Fails {
                reason: named(inside, ReadFault::Short),
                at: from,
            }),
        },
        Err(stop) => Err(stop),
    }
}

#[cycle(read)]
fn read_choice<K: Keep, T: SlotTable>(
    keep: &K,
    steps: &[Step],
    first: usize,
    end: usize,
    cases: &Cases,
    cur: &mut ReadCursor<'_>,
    slots: &mut T,
    path: &mut Path,
    inside: bool,
    from: u64,
) -> Result<K::Kept, Stop>
    requires made { IsMade steps.now }
    requires within { end ≤ length steps.now }
    requires row { cases.now.numbers ≡ case_places steps.now first end }
    requires items { (s : ℕ) → cases.now.rule ≡ Item s → ItemsAre (root_of steps.now) s (cases_at steps.now first end) (case_items steps.now first end) }
    requires ready { (around : List ℕ) × FormStands (root_of steps.now) (length path.old) (choice (cases_at steps.now first end) cases.now.rule) (T.env slots.old) around }
    requires named { AlternativesItemsNamed (cases_at steps.now first end) }
    requires fine { Fine (root_of steps.now) (T.env slots.old) }
    ensures read { IfOk result (λ kept. (d : Data) × K.says kept d × FormRead (root_of steps.now) (choice (cases_at steps.now first end) cases.now.rule) d (T.env slots.old) (T.env slots.new) cur.old cur.new) }
    ensures fails { IfErr result (λ e. Halts (MayLack K.takes T.places) e (FormStops (root_of steps.now) (choice (cases_at steps.now first end) cases.now.rule) (record { path = path.old; place = from; inside = inside }) cur.old.origin (T.env slots.old) cur.old path.new)) }
    ensures path { OnOk result (path.new ≡ path.old) }
{
    match pick(cur, steps, first, end, cases, slots.items(), inside, from) {
        Ok(i) => {
            let this = case_of(cases.numbers.items(), i);
            match read_child(keep, steps, this, i, cur, slots, path, inside) {
                Ok(kept) => match keep.alternative(i, kept) {
                    Ok(chosen) => Ok(chosen),
                    Err(_) => Err(Stop::NoMemory),
                },
                Err(stop) => Err(stop),
            }
        }
        Err(stop) => Err(stop),
    }
}

#[cycle(read)]
fn read_ended<K: Keep, T: SlotTable>(
    keep: &K,
    steps: &[Step],
    this: usize,
    sizing: &Sizing,
    cur: &mut ReadCursor<'_>,
    slots: &mut T,
    path: &mut Path,
    inside: bool,
    from: u64,
) -> Result<K::Kept, Stop>
    requires made { IsMade steps.now }
    requires there { this < length steps.now }
    requires ended { (p : List Bool) × (sizing.now.rule ≡ Ended p) }
    requires ready { (around : List ℕ) × FormStands (root_of steps.now) (length path.old) (list sizing.now (node_at steps.now this)) (T.env slots.old) around }
    requires named { ItemsNamed (node_at steps.now this) }
    requires fine { Fine (root_of steps.now) (T.env slots.old) }
    ensures read { IfOk result (λ kept. (d : Data) × K.says kept d × FormRead (root_of steps.now) (list sizing.now (node_at steps.now this)) d (T.env slots.old) (T.env slots.new) cur.old cur.new) }
    ensures fails { IfErr result (λ e. Halts (MayLack K.takes T.places) e (FormStops (root_of steps.now) (list sizing.now (node_at steps.now this)) (record { path = path.old; place = from; inside = inside }) cur.old.origin (T.env slots.old) cur.old path.new)) }
    ensures path { OnOk result (path.new ≡ path.old) }
{
    match read_elements(
        keep,
        steps,
        this,
        pattern_of(&sizing.rule),
        sizing,
        cur,
        slots,
        path,
        inside,
        from,
    ) {
        Ok(elements) => Ok(keep.list(elements)),
        Err(stop) => Err(stop),
    }
}

// Elements up to the pattern, which is passed.
#[cycle(read)]
fn read_elements<K: Keep, T: SlotTable>(
    keep: &K,
    steps: &[Step],
    this: usize,
    end: &Pattern,
    sizing: &Sizing,
    cur: &mut ReadCursor<'_>,
    slots: &mut T,
    path: &mut Path,
    inside: bool,
    from: u64,
) -> Result<K::Elements, Stop>
    requires made { IsMade steps.now }
    requires there { this < length steps.now }
    requires ready { (around : List ℕ) × InnerStands (root_of steps.now) (suc (length path.old)) (node_at steps.now this) (T.env slots.old) around }
    requires named { ItemsNamed (node_at steps.now this) }
    requires fine { Fine (root_of steps.now) (T.env slots.old) }
    ensures read { IfOk result (λ elements. (ds : List Data) × K.elements_say elements ds × EndedRead (root_of steps.now) inside path.old cur.old.origin (node_at steps.now this) end.now sizing.now ds (T.env slots.old) (T.env slots.new) cur.old cur.new) }
    ensures fails { IfErr result (λ e. Halts (MayLack K.takes T.places) e (TailStops (root_of steps.now) (ended end.now sizing.now) (record { path = path.old; place = from; inside = inside }) cur.old.origin (node_at steps.now this) (size_of (greatest sizing.now.sizes)) 0 (T.env slots.old) cur.old path.new)) }
    ensures path { OnOk result (path.new ≡ path.old) }
{
    let most = most_of(sizing);
    let mut elements = keep.no_elements();
    for i in 0..most {
        if stands(cur, end) {
            match pass_end(cur, end, sizing, i, inside, from) {
                Ok(()) => return Ok(elements),
                Err(stop) => return Err(stop),
            }
        }
        match read_child(keep, steps, this, i as u32, cur, slots, path, inside) {
            Ok(kept) => match keep.add_element(&mut elements, kept) {
                Ok(()) => {}
                Err(_) => return Err(Stop::NoMemory),
            },
            Err(stop) => return Err(stop),
        }
    }
    if stands(cur, end) {
        match pass_end(cur, end, sizing, most, inside, from) {
            Ok(()) => Ok(elements),
            Err(stop) => Err(stop),
        }
    } else {
        Err(no_end(cur, end, inside, from))
    }
}
