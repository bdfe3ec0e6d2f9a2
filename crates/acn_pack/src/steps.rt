//! Steps and what stands at them.

ghost use Rattle.std.specs.Prelude.{◌≡◌, ◌<◌, ◌≤◌, ℕ, List, Option, None, length, slice_get, IfSome, IfNone};
ghost use Rattle.acn_grammar.specs.Grammar.{Grammar};
ghost use Rattle.acn_grammar.specs.View.{a_component, an_inserted};
ghost use Rattle.acn_grammar.specs.declared.node.NumLeaf.{NumLeaf as NumLeafData};
ghost use Rattle.acn_plan.specs.declared.step.Act.TheVariants.{Num};
ghost use Rattle.acn_plan.specs.declared.step.Step.{Step as StepData};
ghost use Rattle.acn_plan.specs.Back.{StepAt, item_at, field_by, cases_at, case_places};
ghost use Rattle.acn_plan.specs.Made.{IsMade};
ghost use Rattle.acn_pack.specs.Parts.{says_string, tests_in, nth_case, IsCase};

use acn_grammar::{NumLeaf, Presence, Test};
use acn_plan::{Act, Place, Step, Steps};

/// The step of a number.
pub fn at(steps: &Steps, this: usize) -> &Step
    requires { this < length steps.now }
    ensures { StepAt steps.now this result.now }
{
    steps.at(this)
}

/// The leaf of a step that is a number.
pub fn number_leaf(act: &Act) -> Option<&NumLeaf>
    ensures some { IfSome result (λ leaf. act.now ≡ Num leaf.now) }
    ensures none { IfNone result ((leaf : NumLeafData) → act.now ≡ Num leaf → ⊥) }
{
    match act {
        Act::Num(leaf) => Some(leaf),
        Act::Octets(_) => None,
        Act::Bits(_) => None,
        Act::Text(_) => None,
        Act::Seq(_) => None,
        Act::List(_) => None,
        Act::Choice(_) => None,
        Act::Contained(_) => None,
    }
}

/// Whether a step is octets, bits or a text.
pub fn is_string(act: &Act) -> bool
    ensures { result ≡ says_string act.now }
{
    match act {
        Act::Octets(_) => true,
        Act::Bits(_) => true,
        Act::Text(_) => true,
        Act::Num(_) => false,
        Act::Seq(_) => false,
        Act::List(_) => false,
        Act::Choice(_) => false,
        Act::Contained(_) => false,
    }
}

/// A component, as a SEQUENCE has it.
#[derive(Clone, Copy)]
pub struct Component<'p> {
    pub presence: &'p Presence,
    pub slot: Option<u32>,
}

/// The component of a place.
pub fn component_of(place: &Place) -> Option<Component<'_>>
    ensures some { IfSome result (λ c. (name : List ℕ) × (default : Option (List ℕ)) × ((g : Grammar) → field_by place.now g ≡ a_component name g c.presence.now default c.slot)) }
    ensures none { IfNone result ((g : Grammar) → (name : List ℕ) × (slot : Option ℕ) × (field_by place.now g ≡ an_inserted name g slot)) }
{
    match place {
        Place::Component { presence, slot, .. } => Some(Component {
            presence,
            slot: *slot,
        }),
        Place::Inserted { .. } => None,
        Place::Root => None,
        Place::Alternative { .. } => None,
        Place::Element => None,
        Place::Content => None,
    }
}

/// The slot of an inserted field.
pub fn inserted_slot(place: &Place) -> Option<u32>
    ensures { (g g' : Grammar) (name : List ℕ) (slot : Option ℕ) → field_by place.now g ≡ an_inserted name g' slot → result ≡ slot }
{
    match place {
        Place::Inserted { slot, .. } => *slot,
        Place::Component { .. } => None,
        Place::Root => None,
        Place::Alternative { .. } => None,
        Place::Element => None,
        Place::Content => None,
    }
}

/// The conditions of an alternative.
pub fn tests_of(place: &Place) -> &[Test]
    ensures { result.now ≡ tests_in place.now }
{
    match place {
        Place::Alternative { tests, .. } => tests.items(),
        Place::Root => &[],
        Place::Component { .. } => &[],
        Place::Inserted { .. } => &[],
        Place::Element => &[],
        Place::Content => &[],
    }
}

/// The item that says that an alternative is there.
pub fn item_of(place: &Place) -> Option<u32>
    ensures { result ≡ item_at place.now }
{
    match place {
        Place::Alternative { item, .. } => *item,
        Place::Root => None,
        Place::Component { .. } => None,
        Place::Inserted { .. } => None,
        Place::Element => None,
        Place::Content => None,
    }
}

fn number_at(numbers: &[u32], i: u32) -> Option<u32>
    ensures { result ≡ slice_get numbers.now i }
{
    numbers.get(i as usize).copied()
}

/// The step of the alternative of an index, where there is one, by the numbers of the steps of all.
pub fn case_of(numbers: &[u32], i: u32) -> Option<usize>
    ensures there { IfSome result (λ n. (steps : List StepData) (first end : ℕ) → IsMade steps → end ≤ length steps → numbers.now ≡ case_places steps first end → IsCase steps first end i n) }
    ensures none { IfNone result ((steps : List StepData) (first end : ℕ) → IsMade steps → end ≤ length steps → numbers.now ≡ case_places steps first end → nth_case (cases_at steps first end) i ≡ None) }
{
    match number_at(numbers, i) {
        Some(number) => Some(number as usize),
        None => None,
    }
}
