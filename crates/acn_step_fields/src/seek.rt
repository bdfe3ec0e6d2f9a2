//! The steps to the field of a slot, through SEQUENCEs alone.

ghost use Rattle.std.specs.Prelude.{◌≡◌, ◌<◌, ◌≤◌, suc, ◌∷◌, [], List, ℕ, Option, Some, None, length, option_map, is_some, if◌then◌else◌};
ghost use Rattle.acn_events.specs.Located.{behind};
ghost use Rattle.acn_grammar.specs.Asks.{at_slot, field_steps, steps_to};
ghost use Rattle.acn_num.specs.declared.limits.TheConstants.{MOST_STEPS};
ghost use Rattle.acn_plan.specs.Back.{StepAt, node_at, fields_at};
ghost use Rattle.acn_plan.specs.Made.{IsMade};
ghost use Rattle.acn_step_fields.specs.Sought.{field_steps_by};
ghost use Rattle.acn_tree.specs.Room.{HasRoom, FieldsHaveRoom};

use crate::inner::home_of;
use acn_num::Path;
use acn_plan::{Place, Step};
use acn_step_breach::step_at;

// Whether the field of this slot, if it has one, is the one that is sought.
fn is_sought(own: &Option<u32>, slot: u32) -> bool
    ensures { (found : List ℕ) (other : Option (List ℕ)) → at_slot own.now slot found other ≡ if result then Some found else other }
{
    match own {
        Some(other) => *other == slot,
        None => false,
    }
}

/// The steps to the field of a slot are put behind the path, if it is among these fields or inside
/// them.
#[cycle(seek)]
pub fn seek(steps: &[Step], first: usize, end: usize, slot: u32, path: &mut Path) -> bool
    requires made { IsMade steps.now }
    requires within { end ≤ length steps.now }
    requires room { FieldsHaveRoom (suc (length path.old)) (fields_at steps.now first end) }
    ensures found { result ≡ is_some (field_steps (fields_at steps.now first end) 0 slot) }
    ensures path { path.new ≡ behind path.old (field_steps (fields_at steps.now first end) 0 slot) path.old }
{
    let mut this = first;
    let mut number = 0u32;
    while this < end {
        let step = step_at(steps, this);
        if seek_by(steps, this, step, number, slot, path) {
            return true;
        }
        number += 1;
        this = step.next as usize;
    }
    false
}

// One field.
#[cycle(seek)]
fn seek_by(
    steps: &[Step],
    this: usize,
    step: &Step,
    number: u32,
    slot: u32,
    path: &mut Path,
) -> bool
    requires made { IsMade steps.now }
    requires there { this < length steps.now }
    requires is { StepAt steps.now this step.now }
    requires room { HasRoom (suc (length path.old)) (node_at steps.now this) }
    ensures found { result ≡ is_some (field_steps_by step.now.place (node_at steps.now this) number slot) }
    ensures path { path.new ≡ behind path.old (field_steps_by step.now.place (node_at steps.now this) number slot) path.old }
{
    match &step.place {
        Place::Component { slot: own, .. } => {
            seek_component(steps, this, step, own, number, slot, path)
        }
        Place::Inserted { slot: own, .. } => seek_inserted(own, number, slot, path),
        Place::Root => false,
        Place::Alternative { .. } => false,
        Place::Element => false,
        Place::Content => false,
    }
}

fn seek_inserted(own: &Option<u32>, number: u32, slot: u32, path: &mut Path) -> bool
    requires { suc (length path.old) ≤ MOST_STEPS }
    ensures found { result ≡ is_some (at_slot own.now slot (number ∷ []) None) }
    ensures path { path.new ≡ behind path.old (at_slot own.now slot (number ∷ []) None) path.old }
{
    if is_sought(own, slot) {
        path.push(number);
        true
    } else {
        false
    }
}

#[cycle(seek)]
fn seek_component(
    steps: &[Step],
    this: usize,
    step: &Step,
    own: &Option<u32>,
    number: u32,
    slot: u32,
    path: &mut Path,
) -> bool
    requires made { IsMade steps.now }
    requires there { this < length steps.now }
    requires is { StepAt steps.now this step.now }
    requires room { HasRoom (suc (length path.old)) (node_at steps.now this) }
    ensures found { result ≡ is_some (at_slot own.now slot (number ∷ []) (option_map (λ inside. number ∷ inside) (steps_to (node_at steps.now this) slot))) }
    ensures path { path.new ≡ behind path.old (at_slot own.now slot (number ∷ []) (option_map (λ inside. number ∷ inside) (steps_to (node_at steps.now this) slot))) path.old }
{
    path.push(number);
    if is_sought(own, slot) {
        return true;
    }
    if seek_inside(steps, this, step, slot, path) {
        return true;
    }
    path.pop();
    false
}

#[cycle(seek)]
fn seek_inside(steps: &[Step], this: usize, step: &Step, slot: u32, path: &mut Path) -> bool
    requires made { IsMade steps.now }
    requires there { this < length steps.now }
    requires is { StepAt steps.now this step.now }
    requires room { HasRoom (length path.old) (node_at steps.now this) }
    ensures found { result ≡ is_some (steps_to (node_at steps.now this) slot) }
    ensures path { path.new ≡ behind path.old (steps_to (node_at steps.now this) slot) path.old }
{
    match home_of(&step.act) {
        Some(_) => seek(steps, this + 1, step.next as usize, slot, path),
        None => false,
    }
}
