//! Steps and their numbers.

ghost use Rattle.std.specs.Prelude.{◌≡◌, ◌<◌, ◌≤◌, ◌+◌, ◌^◌, ℕ, List, length, IfSome, IfNone};
ghost use Rattle.acn_grammar.specs.Fails.{presence_count};
ghost use Rattle.acn_grammar.specs.Grammar.{Grammar, Fields, Alternatives, alternative, node as a_node, num};
ghost use Rattle.acn_grammar.specs.Fails as alternatives;
ghost use Rattle.acn_reads.specs.Choices.{first_case};
ghost use Rattle.acn_reads.specs.Present.{all_hold_now};
ghost use Rattle.acn_unpack.specs.Items.{name_in, is_item, first_item, IsCase};
ghost use Rattle.acn_grammar.specs.View.{with_field};
ghost use Rattle.acn_grammar.specs.declared.node.NumLeaf.{NumLeaf as NumLeafData};
ghost use Rattle.acn_plan.specs.declared.step.Act.TheVariants.{Num};
ghost use Rattle.acn_plan.specs.Back.{StepAt, node_at, fields_at, cases_at, case_items, case_places, item_at, field_by, put_case};
ghost use Rattle.acn_plan.specs.declared.step.Step.{Step as StepData};
ghost use Rattle.acn_plan.specs.Made.{IsMade};
ghost use Rattle.acn_reads.specs.Steps.{IsNumber};

use acn_grammar::{NumLeaf, Presence, Test};
use acn_plan::{Act, Place, Step};
use acn_reads::all_hold;

/// The step of a number.
pub fn at(steps: &[Step], this: usize) -> &Step
    requires { this < length steps.now }
    ensures { StepAt steps.now this result.now }
{
    &steps[this]
}

/// The leaf of a step that is a number.
pub fn act_leaf<'s>(steps: &[Step], this: usize, step: &'s Step) -> &'s NumLeaf
    requires is { StepAt steps.now this step.now }
    requires number { IsNumber (node_at steps.now this) }
    ensures { node_at steps.now this ≡ a_node step.now.align (num result.now) }
{
    match &step.act {
        Act::Num(leaf) => leaf,
        Act::Octets(_) => unreachable!(),
        Act::Bits(_) => unreachable!(),
        Act::Text(_) => unreachable!(),
        Act::Seq(_) => unreachable!(),
        Act::List(_) => unreachable!(),
        Act::Choice(_) => unreachable!(),
        Act::Contained(_) => unreachable!(),
    }
}

fn with_bit(count: u64, place: &Place) -> u64
    requires { count < 2 ^ 63 }
    ensures value { (g : Grammar) (fs : Fields) → count + presence_count (with_field (field_by place.now g) fs) ≡ result + presence_count fs }
    ensures most { result ≤ count + 1 }
{
    match place {
        Place::Component { presence, .. } => match presence {
            Presence::Bit => count + 1,
            Presence::Always => count,
            Presence::When(_) => count,
        },
        Place::Inserted { .. } => count,
        Place::Root => count,
        Place::Alternative { .. } => count,
        Place::Element => count,
        Place::Content => count,
    }
}

/// How many bits say which components are there, and how many components there are.
#[derive(Clone, Copy)]
pub struct Counts {
    pub bits: u64,
    pub places: usize,
}

fn with_place(count: usize, place: &Place) -> usize
    requires { count < 2 ^ 63 }
    ensures { result ≤ count + 1 }
{
    match place {
        Place::Component { .. } => count + 1,
        Place::Inserted { .. } => count,
        Place::Root => count,
        Place::Alternative { .. } => count,
        Place::Element => count,
        Place::Content => count,
    }
}

/// The counts of the fields from a step on to an end.
pub fn counts_of(steps: &[Step], first: usize, end: usize) -> Counts
    requires made { IsMade steps.now }
    requires within { end ≤ length steps.now }
    ensures { result.bits ≡ presence_count (fields_at steps.now first end) }
{
    let mut this = first;
    let mut count = 0u64;
    let mut places = 0usize;
    while this < end {
        let step = at(steps, this);
        count = with_bit(count, &step.place);
        places = with_place(places, &step.place);
        this = step.next as usize;
    }
    Counts {
        bits: count,
        places,
    }
}

// The conditions of an alternative.
fn tests_of(place: &Place) -> &[Test]
    ensures { (g : Grammar) (more : Alternatives) → put_case place.now g more ≡ alternative (name_in place.now) g result.now more }
{
    match place {
        Place::Alternative { tests, .. } => tests.items(),
        Place::Root => &[],
        Place::Component { .. } => &[],
        Place::Inserted { .. } => &[],
        Place::Element => &[],
        Place::Content => &[],
    }
}

// The item that says that an alternative is there.
fn item_of(place: &Place) -> Option<u32>
    ensures { result ≡ item_at place.now }
{
    match place {
        Place::Alternative { item, .. } => *item,
        Place::Root => None,
        Place::Component { .. } => None,
        Place::Inserted { .. } => None,
        Place::Element => None,
        Place::Content => None,
    }
}

// Whether the number is that of the item.
fn is_of(item: Option<u32>, x: &i128) -> bool
    ensures { result ≡ is_item x.now item }
{
    match item {
        Some(item) => *x == i128::from(item),
        None => false,
    }
}

/// How many alternatives there are, by the numbers of their steps.
pub fn count_cases(numbers: &[u32]) -> u64
    ensures { (steps : List StepData) (first end : ℕ) → IsMade steps → end ≤ length steps → numbers.now ≡ case_places steps first end → result ≡ alternatives.count_of (cases_at steps first end) }
{
    numbers.len() as u64
}

/// The step of the alternative of an index, by the numbers of the steps of all.
pub fn case_of(numbers: &[u32], i: u32) -> usize
    requires there { i < length numbers.now }
    ensures { (steps : List StepData) (first end : ℕ) → IsMade steps → end ≤ length steps → numbers.now ≡ case_places steps first end → IsCase steps first end i result }
{
    numbers[i as usize] as usize
}

/// The first alternative whose conditions hold.
pub fn first_holding(steps: &[Step], first: usize, end: usize, slots: &[(u32, i128)]) -> Option<u32>
    requires made { IsMade steps.now }
    requires within { end ≤ length steps.now }
    ensures { result ≡ first_case (λ name tests. all_hold_now slots.now tests) 0 (cases_at steps.now first end) }
{
    let mut this = first;
    let mut i = 0u32;
    while this < end {
        let step = at(steps, this);
        if all_hold(tests_of(&step.place), slots) {
            return Some(i);
        }
        i += 1;
        this = step.next as usize;
    }
    None
}

/// The first alternative whose item has a number.
pub fn first_of_item(steps: &[Step], first: usize, end: usize, x: &i128) -> Option<u32>
    requires made { IsMade steps.now }
    requires within { end ≤ length steps.now }
    ensures { result ≡ first_item x.now 0 (case_items steps.now first end) }
{
    let mut this = first;
    let mut i = 0u32;
    while this < end {
        let step = at(steps, this);
        if is_of(item_of(&step.place), x) {
            return Some(i);
        }
        i += 1;
        this = step.next as usize;
    }
    None
}

/// The leaf of a step that is a number.
pub fn number_leaf(act: &Act) -> Option<&NumLeaf>
    ensures some { IfSome result (λ leaf. act.now ≡ Num leaf.now) }
    ensures none { IfNone result ((leaf : NumLeafData) → act.now ≡ Num leaf → ⊥) }
{
    match act {
        Act::Num(leaf) => Some(leaf),
        Act::Octets(_) => None,
        Act::Bits(_) => None,
        Act::Text(_) => None,
        Act::Seq(_) => None,
        Act::List(_) => None,
        Act::Choice(_) => None,
        Act::Contained(_) => None,
    }
}
