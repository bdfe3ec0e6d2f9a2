//! Steps and their numbers.

ghost use Rattle.std.specs.Prelude.{◌≡◌, ◌<◌, ◌≤◌, length, option_map, IfSome, IfNone};
ghost use Rattle.acn_grammar.specs.Paths.{field_at, alternative_at};
ghost use Rattle.acn_plan.specs.Back.{StepAt, node_at, fields_at, cases_at};
ghost use Rattle.acn_plan.specs.Made.{IsMade};
ghost use Rattle.acn_step_breach.specs.Components.{IsFirst, HasNone};
ghost use Rattle.acn_step_breach.specs.Components as components;

use acn_plan::{Place, Step};

/// The step of a number. It takes no memory.
pub fn step_at(steps: &[Step], this: usize) -> &Step
    requires { this < length steps.now }
    ensures { StepAt steps.now this result.now }
{
    &steps[this]
}

/// The step of the field or the alternative of an index among those from a step on to an end, if
/// there is one. It takes no memory.
pub fn inner_at(steps: &[Step], first: usize, end: usize, index: u32) -> Option<usize>
    requires made { IsMade steps.now }
    requires within { end ≤ length steps.now }
    ensures field { option_map (λ this. node_at steps.now this) result ≡ field_at (fields_at steps.now first end) index }
    ensures case { option_map (λ this. node_at steps.now this) result ≡ alternative_at (cases_at steps.now first end) index }
    ensures inside { IfSome result (λ this. (first ≤ this) × (this < end)) }
{
    let mut this = first;
    let mut left = index;
    while this < end {
        if left == 0 {
            return Some(this);
        }
        left -= 1;
        this = step_at(steps, this).next as usize;
    }
    None
}

fn is_component(place: &Place) -> bool
    ensures { result ≡ components.is_component place.now }
{
    matches!(place, Place::Component { .. })
}

/// Where a component stands.
#[derive(Clone, Copy)]
pub struct Spot {
    /// Its step.
    pub this: usize,
    /// Its number among the fields.
    pub number: u32,
    /// The step behind it and all that is inside it.
    pub next: usize,
}

/// The first component among the fields from a step on to an end, where so many fields stand
/// before them.
pub fn component_from(steps: &[Step], first: usize, end: usize, count: u32) -> Option<Spot>
    requires made { IsMade steps.now }
    requires within { end ≤ length steps.now }
    requires few { count ≤ first }
    ensures some { IfSome result (λ spot. IsFirst steps.now first end count spot) }
    ensures none { IfNone result (HasNone steps.now first end count) }
{
    let mut this = first;
    let mut number = count;
    while this < end {
        let step = step_at(steps, this);
        let next = step.next as usize;
        if is_component(&step.place) {
            return Some(Spot { this, number, next });
        }
        number += 1;
        this = next;
    }
    None
}
