//! The walk over a value and the steps of a plan.

ghost use Rattle.std.specs.Prelude.{◌≡◌, ◌<◌, ◌≤◌, ◌^◌, ◌++◌, ◌∷◌, [], List, ℕ, suc, length, option_map, OnOk, IfNone};
ghost use Rattle.acn_grammar.specs.Grammar.{seq, list, choice, list_of};
ghost use Rattle.acn_grammar.specs.Meets.{Meets, breach, breaches, form_breaches, field_breaches, run_breaches, alternative_breaches, first_of};
ghost use Rattle.acn_grammar.specs.Shaped.{Shaped};
ghost use Rattle.acn_grammar.specs.View.{data_of, places_view, elements_view};
ghost use Rattle.acn_grammar.specs.declared.node.ChoiceRule.{ChoiceRule as ChoiceRuleData};
ghost use Rattle.acn_plan.specs.Back.{StepAt, root_of, node_at, form_at, fields_at, cases_at};
ghost use Rattle.acn_plan.specs.Made.{IsMade};
ghost use Rattle.acn_step_breach.specs.Components.{place_breaches};
ghost use Rattle.acn_step_breach.specs.Found.{found_at, refusal};
ghost use Rattle.acn_tree.specs.Room.{HasRoom, FormHasRoom, FieldsHaveRoom, AlternativesHaveRoom, SizesAreSmall};

use crate::leaves::{Breach, bits_meet, number_meets, octets_meet, reason, size_meets, text_meets};
use crate::steps::{component_from, inner_at, step_at};
use acn_grammar::{Sizing, UnfitReason, Value};
use acn_num::Path;
use acn_packet_laws::accepted_is_sound;
use acn_plan::{Act, Plan, Step};

// The walk stays at the path of the first breach, or comes back to where it began.
#[cycle(meet)]
fn node_meets(steps: &[Step], this: usize, v: &Value, path: &mut Path) -> Result<(), Breach>
    requires made { IsMade steps.now }
    requires there { this < length steps.now }
    requires room { HasRoom (length path.old) (node_at steps.now this) }
    ensures answer { found_at path.new result ≡ first_of (breaches path.old (node_at steps.now this) (data_of v.now)) }
    ensures back { OnOk result (path.new ≡ path.old) }
{
    let step = step_at(steps, this);
    body_meets(steps, this, step, v, path)
}

#[cycle(meet)]
fn body_meets(
    steps: &[Step],
    this: usize,
    step: &Step,
    v: &Value,
    path: &mut Path,
) -> Result<(), Breach>
    requires made { IsMade steps.now }
    requires there { this < length steps.now }
    requires is { StepAt steps.now this step.now }
    requires room { FormHasRoom (length path.old) (form_at steps.now this step.now) }
    ensures answer { found_at path.new result ≡ first_of (form_breaches path.old (form_at steps.now this step.now) (data_of v.now)) }
    ensures back { OnOk result (path.new ≡ path.old) }
{
    match &step.act {
        Act::Num(leaf) => number_meets(leaf, v),
        Act::Octets(sizing) => octets_meet(sizing, v),
        Act::Bits(sizing) => bits_meet(sizing, v),
        Act::Text(leaf) => text_meets(leaf, v),
        Act::Seq(_) => seq_meets(steps, this + 1, step.next as usize, v, path),
        Act::List(sizing) => list_meets(steps, this + 1, sizing, v, path),
        Act::Choice(_) => choice_meets(steps, this + 1, step.next as usize, v, path),
        Act::Contained(_) => child_meets(steps, this + 1, 0, v, path),
    }
}

// One step inside.
#[cycle(meet)]
fn child_meets(
    steps: &[Step],
    this: usize,
    number: u32,
    v: &Value,
    path: &mut Path,
) -> Result<(), Breach>
    requires made { IsMade steps.now }
    requires there { this < length steps.now }
    requires room { HasRoom (suc (length path.old)) (node_at steps.now this) }
    ensures answer { found_at path.new result ≡ first_of (breaches (path.old ++ number ∷ []) (node_at steps.now this) (data_of v.now)) }
    ensures back { OnOk result (path.new ≡ path.old) }
{
    path.push(number);
    node_meets(steps, this, v, path)?;
    path.pop();
    Ok(())
}

#[cycle(meet)]
fn seq_meets(
    steps: &[Step],
    first: usize,
    end: usize,
    v: &Value,
    path: &mut Path,
) -> Result<(), Breach>
    requires made { IsMade steps.now }
    requires within { end ≤ length steps.now }
    requires room { FieldsHaveRoom (suc (length path.old)) (fields_at steps.now first end) }
    ensures answer { (home : List ℕ) → found_at path.new result ≡ first_of (form_breaches path.old (seq (fields_at steps.now first end) home) (data_of v.now)) }
    ensures back { OnOk result (path.new ≡ path.old) }
{
    match v {
        Value::Seq(places) => fields_meet(steps, first, end, places.items(), path),
        _ => Ok(()),
    }
}

#[cycle(meet)]
fn fields_meet(
    steps: &[Step],
    first: usize,
    end: usize,
    places: &[Option<Value>],
    path: &mut Path,
) -> Result<(), Breach>
    requires made { IsMade steps.now }
    requires within { end ≤ length steps.now }
    requires room { FieldsHaveRoom (suc (length path.old)) (fields_at steps.now first end) }
    ensures answer { found_at path.new result ≡ first_of (field_breaches path.old 0 (fields_at steps.now first end) (places_view places.now)) }
    ensures back { OnOk result (path.new ≡ path.old) }
{
    let mut this = first;
    let mut number = 0u32;
    for place in places {
        match component_from(steps, this, end, number) {
            Some(spot) => {
                place_meets(steps, spot.this, spot.number, place, path)?;
                number = spot.number + 1;
                this = spot.next;
            }
            None => return Ok(()),
        }
    }
    Ok(())
}

#[cycle(meet)]
fn place_meets(
    steps: &[Step],
    this: usize,
    number: u32,
    place: &Option<Value>,
    path: &mut Path,
) -> Result<(), Breach>
    requires made { IsMade steps.now }
    requires there { this < length steps.now }
    requires room { HasRoom (suc (length path.old)) (node_at steps.now this) }
    ensures answer { found_at path.new result ≡ first_of (place_breaches (path.old ++ number ∷ []) (node_at steps.now this) (option_map data_of place.now)) }
    ensures back { OnOk result (path.new ≡ path.old) }
{
    match place {
        Some(v) => child_meets(steps, this, number, v, path),
        None => Ok(()),
    }
}

#[cycle(meet)]
fn list_meets(
    steps: &[Step],
    this: usize,
    sizing: &Sizing,
    v: &Value,
    path: &mut Path,
) -> Result<(), Breach>
    requires made { IsMade steps.now }
    requires there { this < length steps.now }
    requires small { SizesAreSmall sizing.now }
    requires room { HasRoom (suc (length path.old)) (node_at steps.now this) }
    ensures answer { found_at path.new result ≡ first_of (form_breaches path.old (list sizing.now (node_at steps.now this)) (data_of v.now)) }
    ensures back { OnOk result (path.new ≡ path.old) }
{
    match v {
        Value::List(elements) => elements_meet(steps, this, sizing, elements.items(), path),
        _ => Ok(()),
    }
}

#[cycle(meet)]
fn elements_meet(
    steps: &[Step],
    this: usize,
    sizing: &Sizing,
    elements: &[Value],
    path: &mut Path,
) -> Result<(), Breach>
    requires made { IsMade steps.now }
    requires there { this < length steps.now }
    requires small { SizesAreSmall sizing.now }
    requires room { HasRoom (suc (length path.old)) (node_at steps.now this) }
    ensures answer { found_at path.new result ≡ first_of (form_breaches path.old (list sizing.now (node_at steps.now this)) (list_of (elements_view elements.now))) }
    ensures back { OnOk result (path.new ≡ path.old) }
{
    size_meets(sizing, elements.len())?;
    run_meets(steps, this, elements, path)
}

#[cycle(meet)]
fn run_meets(steps: &[Step], this: usize, elements: &[Value], path: &mut Path) -> Result<(), Breach>
    requires made { IsMade steps.now }
    requires there { this < length steps.now }
    requires few { length elements.now < 2 ^ 32 }
    requires room { HasRoom (suc (length path.old)) (node_at steps.now this) }
    ensures answer { found_at path.new result ≡ first_of (run_breaches (λ k d. breaches (path.old ++ k ∷ []) (node_at steps.now this) d) 0 (elements_view elements.now)) }
    ensures back { OnOk result (path.new ≡ path.old) }
{
    let mut number = 0u32;
    for v in elements {
        child_meets(steps, this, number, v, path)?;
        number += 1;
    }
    Ok(())
}

#[cycle(meet)]
fn choice_meets(
    steps: &[Step],
    first: usize,
    end: usize,
    v: &Value,
    path: &mut Path,
) -> Result<(), Breach>
    requires made { IsMade steps.now }
    requires within { end ≤ length steps.now }
    requires room { AlternativesHaveRoom (suc (length path.old)) (cases_at steps.now first end) }
    ensures answer { (rule : ChoiceRuleData) → found_at path.new result ≡ first_of (form_breaches path.old (choice (cases_at steps.now first end) rule) (data_of v.now)) }
    ensures back { OnOk result (path.new ≡ path.old) }
{
    match v {
        Value::Alt(index, inside) => case_meets(steps, first, end, *index, inside.get(), path),
        _ => Ok(()),
    }
}

#[cycle(meet)]
fn case_meets(
    steps: &[Step],
    first: usize,
    end: usize,
    index: u32,
    v: &Value,
    path: &mut Path,
) -> Result<(), Breach>
    requires made { IsMade steps.now }
    requires within { end ≤ length steps.now }
    requires room { AlternativesHaveRoom (suc (length path.old)) (cases_at steps.now first end) }
    ensures answer { found_at path.new result ≡ first_of (alternative_breaches path.old index (cases_at steps.now first end) index (data_of v.now)) }
    ensures back { OnOk result (path.new ≡ path.old) }
{
    match inner_at(steps, first, end, index) {
        Some(this) => child_meets(steps, this, index, v, path),
        None => Ok(()),
    }
}

/// The first constraint that the value breaks, of the plan's root or of what is inside it (X.680):
/// each number, size and character is permitted, and the terminator of an ended text occurs first
/// at its end.
///
/// A reason comes exactly where one is broken: that of the first place in preorder, whose path is
/// written. At one text the size goes first, then the characters, then the terminator. Where none
/// is broken a value of the root's shape meets all of them, and the path is that of the root. It
/// takes no memory.
pub fn breach_of(plan: &Plan, v: &Value, path: &mut Path) -> Option<UnfitReason>
    ensures answer { refusal path.new result ≡ breach (root_of plan.now.steps) (data_of v.now) }
    ensures meets { IfNone result (Shaped (root_of plan.now.steps) (data_of v.now) → Meets (root_of plan.now.steps) (data_of v.now)) }
    ensures top { IfNone result (path.new ≡ []) }
{
    accepted_is_sound();
    let steps = plan.steps();
    *path = Path::new();
    match node_meets(steps, 0, v, path) {
        Ok(()) => None,
        Err(breach) => Some(reason(breach)),
    }
}
