//! Parts of fields and alternatives that hold no others.

ghost use Rattle.std.specs.Prelude.{◌<◌, ℕ, List, length};
ghost use Rattle.acn_grammar.specs.Grammar.{Grammar, node, num};
ghost use Rattle.acn_grammar.specs.View.{data_of};
ghost use Rattle.acn_plan.specs.Back.{node_at};
ghost use Rattle.acn_events.specs.Events.{own_events, inserted_events};
ghost use Rattle.acn_pack.specs.Packs.{Packs};
ghost use Rattle.acn_pack.specs.Parts.{case_tests, item_events, name_in, tests_in, IsItemed};
ghost use Rattle.acn_pack.specs.Sounds.{IsSound};

use crate::asking::{ask_tests, equal};
use crate::steps::{at, item_of, number_leaf, tests_of};
use acn_grammar::{ChoiceRule, NumLeaf, Value};
use acn_plan::{Place, Steps};
use acn_writer::{Halt, Halted, Writer};

/// The number of a component is noted where it is a slot's.
pub fn note_own<const N: usize, const S: usize, const A: usize>(
    leaf: &NumLeaf,
    slot: Option<u32>,
    v: &Value,
    w: &mut Writer<'_, '_, N, S, A>,
    why: &mut Halt,
) -> Result<(), Halted>
    ensures { (align : ℕ) (path : List ℕ) → Packs (own_events path slot (node align (num leaf.now)) (data_of v.now)) w.old w.new path why.new result }
{
    match slot {
        Some(slot) => {
            let x = v.number();
            w.note(slot, &leaf.set, x, why)
        }
        None => Ok(()),
    }
}

/// An inserted field: a hole for the number of its slot, or a NULL.
pub fn put_inserted<'p, const N: usize, const S: usize, const A: usize>(
    steps: &'p Steps,
    this: usize,
    slot: Option<u32>,
    w: &mut Writer<'_, 'p, N, S, A>,
    why: &mut Halt,
) -> Result<(), Halted>
    requires there { this < length steps.now }
    requires sound { (root : Grammar) × (k : ℕ) × IsSound root k (node_at steps.now this) }
    ensures { (path : List ℕ) → Packs (inserted_events slot (node_at steps.now this)) w.old w.new path why.new result }
{
    let step = at(steps, this);
    match number_leaf(&step.act) {
        Some(leaf) => {
            w.align(step.align, why)?;
            match slot {
                Some(slot) => w.open(slot, leaf, why),
                None => w.code(leaf, 0, why),
            }
        }
        None => Ok(()),
    }
}

/// The item of an alternative is asked, where the number of a slot says which one is there.
pub fn ask_item<const N: usize, const S: usize, const A: usize>(
    rule: &ChoiceRule,
    place: &Place,
    w: &mut Writer<'_, '_, N, S, A>,
    why: &mut Halt,
) -> Result<(), Halted>
    requires { (root : Grammar) × IsItemed root rule.now place.now }
    ensures { (root : Grammar) (path : List ℕ) → IsItemed root rule.now place.now → Packs (item_events root path rule.now (name_in place.now)) w.old w.new path why.new result }
{
    match rule {
        ChoiceRule::Index(_) => Ok(()),
        ChoiceRule::Tests => Ok(()),
        ChoiceRule::Item(slot) => match item_of(place) {
            Some(item) => {
                let ask = equal(u64::from(item));
                w.want(*slot, ask, why)
            }
            None => unreachable!(),
        },
    }
}

/// The conditions of an alternative are asked, where they say which one is there.
pub fn ask_case<const N: usize, const S: usize, const A: usize>(
    rule: &ChoiceRule,
    place: &Place,
    w: &mut Writer<'_, '_, N, S, A>,
    why: &mut Halt,
) -> Result<(), Halted>
    ensures { (path : List ℕ) → Packs (case_tests path rule.now (tests_in place.now)) w.old w.new path why.new result }
{
    match rule {
        ChoiceRule::Index(_) => {
            let tests = tests_of(place);
            ask_tests(tests, true, w, why)
        }
        ChoiceRule::Tests => {
            let tests = tests_of(place);
            ask_tests(tests, true, w, why)
        }
        ChoiceRule::Item(_) => Ok(()),
    }
}
