//! From a grammar to its steps.

ghost use Rattle.std.specs.Prelude.{◌≡◌, ◌+◌, ◌++◌, [], ◌∷◌, ◌^◌, ◌<◌, length, IfOk, OnOk, ℕ, List};
ghost use Rattle.acn_firsts.specs.Placed.{noted_all};
ghost use Rattle.acn_grammar.specs.Grammar.{Grammar};
ghost use Rattle.acn_grammar.specs.View.{grammar_of, form_of, field_of, fields_view, alternatives_view, with_field};
ghost use Rattle.acn_plan.specs.Steps.{case_numbers, count_of, form_count, fields_count, cases_count, node_steps, form_steps, field_steps, case_steps, one_field_steps, item_for};
ghost use Rattle.acn_plan.specs.Program.{item_places, form_numbers, with_numbers, open_act, open_step, ended};
ghost use Rattle.acn_plan.specs.declared.step.Step.{Step as StepData};
ghost use Rattle.acn_plan.specs.declared.step.Place.TheVariants.{Component as Component_place, Inserted as Inserted_place, Alternative as Alternative_place};
ghost use Rattle.acn_grammar.specs.Grammar.{no_fields};
ghost use Rattle.acn_grammar.specs.Slots.{items_of};

use crate::copies::{
    leaf_of, name_of, numbers_of, optional, presence_of, sizing_of, tests_of, text_of,
};
use crate::items::{item_names, item_of};
use crate::step::{Act, Cases, Place, Step};
use acn_firsts::Firsts;
use acn_grammar::{Alternative, Body, ChoiceRule, Field, Node, Presence, Test};
use acn_num::{Name, NoMemory, Row};
use std::alloc::Global;

// The body of a node without the nodes inside it, the numbers of whose steps aren't known yet.
fn act(alloc: Global, body: &Body) -> Result<Act, NoMemory>
    ensures { IfOk result (λ act. act ≡ open_act (form_of body.now)) }
{
    match body {
        Body::Num(leaf) => Ok(Act::Num(leaf_of(alloc, leaf)?)),
        Body::Octets(sizing) => Ok(Act::Octets(sizing_of(alloc, sizing)?)),
        Body::Bits(sizing) => Ok(Act::Bits(sizing_of(alloc, sizing)?)),
        Body::Text(leaf) => Ok(Act::Text(text_of(alloc, leaf)?)),
        Body::Seq(seq) => Ok(Act::Seq(numbers_of(alloc, seq.home.items())?)),
        Body::List(sizing, _) => Ok(Act::List(sizing_of(alloc, sizing)?)),
        Body::Choice(choice) => Ok(Act::Choice(Cases {
            rule: choice.rule,
            numbers: Row::new(alloc),
        })),
        Body::Contained(sizing, _) => Ok(Act::Contained(sizing_of(alloc, sizing)?)),
    }
}

// Adds the step of a node alone, whose end isn't known yet.
fn put_step(alloc: Global, node: &Node, place: Place, steps: &mut Vec<Step>) -> Result<(), NoMemory>
    ensures { OnOk result (steps.new.items ≡ steps.old.items ++ open_step place (grammar_of node.now) ∷ []) }
{
    let act = act(alloc, &node.body)?;
    steps.push(Step {
        align: node.align,
        act,
        place,
        next: 0,
    })?;
    Ok(())
}

// Gives an act the numbers of the steps of its alternatives.
fn set_numbers(act: &mut Act, numbers: Row<u32>)
    ensures { act.new ≡ with_numbers numbers act.old }
{
    match act {
        Act::Choice(cases) => cases.numbers = numbers,
        Act::Num(_) => {}
        Act::Octets(_) => {}
        Act::Bits(_) => {}
        Act::Text(_) => {}
        Act::Seq(_) => {}
        Act::List(_) => {}
        Act::Contained(_) => {}
    }
}

fn end(step: &mut Step, numbers: Row<u32>, next: u32)
    ensures { step.new ≡ ended step.old numbers next }
{
    set_numbers(&mut step.act, numbers);
    step.next = next;
}

// Ends a step behind the last one.
fn end_step(at: usize, numbers: Row<u32>, steps: &mut Vec<Step>)
    requires there { at < length steps.old.items }
    requires few { length steps.old.items < 2 ^ 32 }
    ensures { (front behind : List StepData) (s : StepData) → length front ≡ at → steps.old.items ≡ front ++ s ∷ behind → steps.new.items ≡ front ++ ended s numbers (length steps.old.items) ∷ behind }
{
    let next = steps.len() as u32;
    end(&mut steps[at], numbers, next);
}

fn component_place(
    alloc: Global,
    name: &Name,
    presence: &Presence,
    default: &Option<Name>,
    slot: Option<u32>,
) -> Result<Place, NoMemory>
    ensures { IfOk result (λ place. place ≡ Component_place name.now presence.now default.now slot) }
{
    let name = name_of(alloc, name)?;
    let presence = presence_of(alloc, presence)?;
    let default = optional(alloc, default)?;
    Ok(Place::Component {
        name,
        presence,
        default,
        slot,
    })
}

fn inserted_place(alloc: Global, name: &Name, slot: Option<u32>) -> Result<Place, NoMemory>
    ensures { IfOk result (λ place. place ≡ Inserted_place name.now slot) }
{
    let name = name_of(alloc, name)?;
    Ok(Place::Inserted { name, slot })
}

fn alternative_place(
    alloc: Global,
    name: &Name,
    tests: &[Test],
    item: Option<u32>,
) -> Result<Place, NoMemory>
    ensures { IfOk result (λ place. place ≡ Alternative_place name.now tests.now item) }
{
    let name = name_of(alloc, name)?;
    let tests = tests_of(alloc, tests)?;
    Ok(Place::Alternative { name, tests, item })
}

/// Adds the steps of a node and of all that is inside it.
#[cycle(put)]
pub fn put_node(
    alloc: Global,
    node: &Node,
    root: &Node,
    place: Place,
    steps: &mut Vec<Step>,
) -> Result<(), NoMemory>
    requires few { length steps.old.items + count_of (grammar_of node.now) < 2 ^ 32 }
    requires items { (s : ℕ) → length (items_of (grammar_of root.now) s) < 2 ^ 32 }
    ensures { OnOk result (steps.new.items ≡ steps.old.items ++ node_steps (grammar_of root.now) place (length steps.old.items) (grammar_of node.now)) }
{
    let at = steps.len();
    put_step(alloc, node, place, steps)?;
    let numbers = put_body(alloc, &node.body, root, steps)?;
    end_step(at, numbers, steps);
    Ok(())
}

// Adds the steps of what is inside a node. The answer is the numbers of the steps of its alternatives.
#[cycle(put)]
fn put_body(
    alloc: Global,
    body: &Body,
    root: &Node,
    steps: &mut Vec<Step>,
) -> Result<Row<u32>, NoMemory>
    requires few { length steps.old.items + form_count (form_of body.now) < 2 ^ 32 }
    requires items { (s : ℕ) → length (items_of (grammar_of root.now) s) < 2 ^ 32 }
    ensures put { OnOk result (steps.new.items ≡ steps.old.items ++ form_steps (grammar_of root.now) (length steps.old.items) (form_of body.now)) }
    ensures numbers { IfOk result (λ numbers. numbers ≡ form_numbers (length steps.old.items) (form_of body.now)) }
{
    match body {
        Body::Num(_) => Ok(Row::new(alloc)),
        Body::Octets(_) => Ok(Row::new(alloc)),
        Body::Bits(_) => Ok(Row::new(alloc)),
        Body::Text(_) => Ok(Row::new(alloc)),
        Body::Seq(seq) => {
            put_fields(alloc, seq.fields.items(), root, steps)?;
            Ok(Row::new(alloc))
        }
        Body::List(_, element) => {
            put_node(alloc, element.get(), root, Place::Element, steps)?;
            Ok(Row::new(alloc))
        }
        Body::Choice(choice) => put_cases(
            alloc,
            choice.alternatives.items(),
            &choice.rule,
            root,
            steps,
        ),
        Body::Contained(_, content) => {
            put_node(alloc, content.get(), root, Place::Content, steps)?;
            Ok(Row::new(alloc))
        }
    }
}

#[cycle(put)]
fn put_fields(
    alloc: Global,
    fields: &[Field],
    root: &Node,
    steps: &mut Vec<Step>,
) -> Result<(), NoMemory>
    requires few { length steps.old.items + fields_count (fields_view fields.now) < 2 ^ 32 }
    requires items { (s : ℕ) → length (items_of (grammar_of root.now) s) < 2 ^ 32 }
    ensures { OnOk result (steps.new.items ≡ steps.old.items ++ field_steps (grammar_of root.now) (length steps.old.items) (fields_view fields.now)) }
{
    for field in fields {
        put_field(alloc, field, root, steps)?;
    }
    Ok(())
}

#[cycle(put)]
fn put_field(
    alloc: Global,
    field: &Field,
    root: &Node,
    steps: &mut Vec<Step>,
) -> Result<(), NoMemory>
    requires few { length steps.old.items + fields_count (with_field (field_of field.now) no_fields) < 2 ^ 32 }
    requires items { (s : ℕ) → length (items_of (grammar_of root.now) s) < 2 ^ 32 }
    ensures { OnOk result (steps.new.items ≡ steps.old.items ++ one_field_steps (grammar_of root.now) (length steps.old.items) (field_of field.now)) }
{
    match field {
        Field::Component {
            name,
            node,
            presence,
            default,
            slot,
        } => {
            let place = component_place(alloc, name, presence, default, *slot)?;
            put_node(alloc, node, root, place, steps)
        }
        Field::Inserted { name, node, slot } => {
            let place = inserted_place(alloc, name, *slot)?;
            put_node(alloc, node, root, place, steps)
        }
    }
}

// Adds the steps of alternatives. The answer is the number of the first of each.
#[cycle(put)]
fn put_cases(
    alloc: Global,
    alternatives: &[Alternative],
    rule: &ChoiceRule,
    root: &Node,
    steps: &mut Vec<Step>,
) -> Result<Row<u32>, NoMemory>
    requires few { length steps.old.items + cases_count (alternatives_view alternatives.now) < 2 ^ 32 }
    requires items { (s : ℕ) → length (items_of (grammar_of root.now) s) < 2 ^ 32 }
    ensures put { OnOk result (steps.new.items ≡ steps.old.items ++ case_steps (grammar_of root.now) rule.now (length steps.old.items) (alternatives_view alternatives.now)) }
    ensures numbers { IfOk result (λ numbers. numbers ≡ case_numbers (length steps.old.items) (alternatives_view alternatives.now)) }
{
    let names = item_names(alloc, root, rule)?;
    let mut numbers = Row::new(alloc);
    for alternative in alternatives {
        numbers.push(steps.len() as u32)?;
        put_case(alloc, alternative, rule, &names, root, steps)?;
    }
    Ok(numbers)
}

#[cycle(put)]
fn put_case(
    alloc: Global,
    alternative: &Alternative,
    rule: &ChoiceRule,
    names: &Firsts,
    root: &Node,
    steps: &mut Vec<Step>,
) -> Result<(), NoMemory>
    requires few { length steps.old.items + count_of (grammar_of alternative.now.node) < 2 ^ 32 }
    requires items { (s : ℕ) → length (items_of (grammar_of root.now) s) < 2 ^ 32 }
    requires names { names.now ≡ noted_all [] (item_places (grammar_of root.now) rule.now) }
    ensures { OnOk result (steps.new.items ≡ steps.old.items ++ node_steps (grammar_of root.now) (Alternative_place alternative.now.name alternative.now.tests (item_for (grammar_of root.now) rule.now alternative.now.name)) (length steps.old.items) (grammar_of alternative.now.node)) }
{
    let item = item_of(rule, names, alternative.name.bytes());
    let place = alternative_place(alloc, &alternative.name, alternative.tests.items(), item)?;
    put_node(alloc, &alternative.node, root, place, steps)
}
