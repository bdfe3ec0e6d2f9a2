//! The bits that say which components are there.

ghost use Rattle.std.specs.Prelude.{◌≡◌, ◌≤◌, ◌+◌, ◌++◌, ◌∷◌, [], ℕ, Bool, List, drop, is_some, length, IfSome, IfNone};
ghost use Rattle.acn_grammar.specs.Grammar.{Grammar, Fields};
ghost use Rattle.acn_grammar.specs.Length.{presence_bits, bit_before};
ghost use Rattle.acn_grammar.specs.View.{places_view, with_field};
ghost use Rattle.acn_plan.specs.Back.{fields_at, field_by};
ghost use Rattle.acn_plan.specs.Made.{IsMade};
ghost use Rattle.acn_events.specs.Event.{begins};
ghost use Rattle.acn_events.specs.Steps.{put, Room};
ghost use Rattle.acn_writer.specs.Answers.{state_of};
ghost use Rattle.acn_pack.specs.Packs.{Packs};
ghost use Rattle.acn_pack.specs.Parts.{bits_in};

use crate::steps::{at, component_of};
use acn_grammar::{Presence, Value};
use acn_plan::{Place, Steps};
use acn_writer::{Halt, Halted, Writer};

// The bit of a field, if it has one, and the place of the next component behind it.
#[derive(Clone, Copy)]
struct FieldFlag {
    bit: Option<bool>,
    next: usize,
}

// The bit of a component that is there or not.
fn bit_of(presence: &Presence, there: bool) -> Option<bool>
    ensures { (bs : List Bool) → bit_before presence.now there bs ≡ bits_in result ++ bs }
{
    match presence {
        Presence::Always => None,
        Presence::Bit => Some(there),
        Presence::When(_) => None,
    }
}

// Whether a component is there.
fn is_there(place: &Option<Value>) -> bool
    ensures { result ≡ is_some place.now }
{
    match place {
        Some(_) => true,
        None => false,
    }
}

// How many bits a flag has.
fn width_of(bit: Option<bool>) -> u64
    ensures { result ≡ length (bits_in bit) }
{
    match bit {
        Some(_) => 1,
        None => 0,
    }
}

// The flag of a field. There is none where a component has no place.
fn flag_of(place: &Place, places: &[Option<Value>], next: usize) -> Option<FieldFlag>
    requires { next ≤ length places.now }
    ensures within { IfSome result (λ t. t.next ≤ length places.now) }
    ensures some { IfSome result (λ t. (g : Grammar) (fs : Fields) → presence_bits (with_field (field_by place.now g) fs) (places_view (drop next places.now)) ≡ bits_in t.bit ++ presence_bits fs (places_view (drop t.next places.now))) }
    ensures none { IfNone result ((g : Grammar) (fs : Fields) → presence_bits (with_field (field_by place.now g) fs) (places_view (drop next places.now)) ≡ []) }
{
    match component_of(place) {
        Some(component) => match places.get(next) {
            Some(component_place) => {
                let there = is_there(component_place);
                let bit = bit_of(component.presence, there);
                Some(FieldFlag {
                    bit,
                    next: next + 1,
                })
            }
            None => None,
        },
        None => Some(FieldFlag { bit: None, next }),
    }
}

// How many bits there are.
fn count_flags(steps: &Steps, first: usize, end: usize, places: &[Option<Value>]) -> u64
    requires made { IsMade steps.now }
    requires within { end ≤ length steps.now }
    ensures { result ≡ length (presence_bits (fields_at steps.now first end) (places_view places.now)) }
{
    let mut this = first;
    let mut next = 0;
    let mut count = 0u64;
    while this < end {
        let step = at(steps, this);
        match flag_of(&step.place, places, next) {
            Some(flag) => {
                let width = width_of(flag.bit);
                count += width;
                next = flag.next;
                this = step.next as usize;
            }
            None => return count,
        }
    }
    count
}

fn put_flag<const N: usize, const S: usize, const A: usize>(
    bit: Option<bool>,
    w: &mut Writer<'_, '_, N, S, A>,
)
    requires { Room (length (bits_in bit)) (state_of w.old) }
    ensures put { state_of w.new ≡ put (bits_in bit) (state_of w.old) }
    ensures same_buffer { w.new.cursor.buf.ghost_name ≡ w.old.cursor.buf.ghost_name }
{
    match bit {
        Some(bit) => w.put_bit(bit),
        None => {}
    }
}

fn put_each<const N: usize, const S: usize, const A: usize>(
    steps: &Steps,
    first: usize,
    end: usize,
    places: &[Option<Value>],
    w: &mut Writer<'_, '_, N, S, A>,
)
    requires made { IsMade steps.now }
    requires within { end ≤ length steps.now }
    requires room { Room (length (presence_bits (fields_at steps.now first end) (places_view places.now))) (state_of w.old) }
    ensures put { state_of w.new ≡ put (presence_bits (fields_at steps.now first end) (places_view places.now)) (state_of w.old) }
    ensures same_buffer { w.new.cursor.buf.ghost_name ≡ w.old.cursor.buf.ghost_name }
{
    let mut this = first;
    let mut next = 0;
    while this < end {
        let step = at(steps, this);
        match flag_of(&step.place, places, next) {
            Some(flag) => {
                put_flag(flag.bit, w);
                next = flag.next;
                this = step.next as usize;
            }
            None => return,
        }
    }
}

// A SEQUENCE begins where less room is left than for a bit of each component: the bits are counted.
#[cold]
#[inline(never)]
fn put_counted<const N: usize, const S: usize, const A: usize>(
    steps: &Steps,
    first: usize,
    end: usize,
    places: &[Option<Value>],
    w: &mut Writer<'_, '_, N, S, A>,
    why: &mut Halt,
) -> Result<(), Halted>
    requires made { IsMade steps.now }
    requires within { end ≤ length steps.now }
    ensures { (homes : List (ℕ × List ℕ)) (path : List ℕ) → Packs (begins homes (presence_bits (fields_at steps.now first end) (places_view places.now)) ∷ []) w.old w.new path why.new result }
{
    let count = count_flags(steps, first, end, places);
    if w.has_room(count) {
        put_each(steps, first, end, places, w);
        Ok(())
    } else {
        *why = Halt::Lost;
        Err(Halted)
    }
}

/// A SEQUENCE begins: one bit for each component that has one, true where it is there.
pub fn put_flags<const N: usize, const S: usize, const A: usize>(
    steps: &Steps,
    first: usize,
    end: usize,
    places: &[Option<Value>],
    w: &mut Writer<'_, '_, N, S, A>,
    why: &mut Halt,
) -> Result<(), Halted>
    requires made { IsMade steps.now }
    requires within { end ≤ length steps.now }
    ensures { (homes : List (ℕ × List ℕ)) (path : List ℕ) → Packs (begins homes (presence_bits (fields_at steps.now first end) (places_view places.now)) ∷ []) w.old w.new path why.new result }
{
    if w.has_room(places.len() as u64) {
        put_each(steps, first, end, places, w);
        Ok(())
    } else {
        put_counted(steps, first, end, places, w, why)
    }
}
