//! What each part of a node asks.

ghost use Rattle.std.specs.Prelude.{◌≡◌, ◌<◌, ◌∷◌, ◌++◌, [], ℕ, List, length, map, true, OnOk, IfOk, Option, pos};
ghost use Rattle.acn_num.specs.declared.limits.TheConstants.{MOST_STEPS};
ghost use Rattle.acn_grammar.specs.Slots.{items_of};
ghost use Rattle.acn_grammar.specs.Asks as asks;
ghost use Rattle.acn_grammar.specs.Faults.{ask_of};
ghost use Rattle.acn_grammar.specs.Grammar.{Grammar};
ghost use Rattle.acn_grammar.specs.Scoped.{TestIn, TestsIn, PresenceIn, RuleIn};
ghost use Rattle.acn_grammar.specs.Tree.{holds};
ghost use Rattle.acn_grammar.specs.View.{data_of};
ghost use Rattle.acn_asking.specs.Uses.{OwnIn, CaseIn};
ghost use Rattle.acn_asking.specs.Gathered.{paths_of, slots_of, LeavesIn, Gathers};

use crate::opened::{Open, open_slot};
use crate::wanted::{item_place, own_wanted, size_wanted, test_wanted, tested_slot};
use acn_asks::Moment;
use acn_grammar::{Alternative, Ask, ChoiceRule, Presence, SizeRule, Sizing, Test, Value};
use acn_num::{NoMemory, Path, Row};
use std::alloc::Global;

fn copied(alloc: Global, steps: &[u32]) -> Result<Row<u32>, NoMemory>
    ensures { IfOk result (λ all. all ≡ steps.now) }
{
    let steps = Vec::from_slice(alloc, steps)?;
    Ok(Row::from_vec(steps))
}

// What the node at the path asks of a slot.
fn ask<'t>(
    alloc: Global,
    path: &Path,
    slots: &[Open<'t>],
    slot: u32,
    wanted: Ask,
    moments: &mut Row<Moment<'t>>,
) -> Result<(), NoMemory>
    requires { holds (slots_of slots.now) slot ≡ true }
    ensures { OnOk result ((root : Grammar) → LeavesIn root slots.now → Gathers root (asks.asked (paths_of slots.now) path.now slot (ask_of wanted) ∷ []) moments.old moments.new) }
{
    let here = open_slot(slots, slot);
    let field = copied(alloc, here.field.items())?;
    let path = copied(alloc, path.steps())?;
    moments.push(Moment::Asks {
        path,
        field,
        slot,
        set: &here.leaf.set,
        wanted,
    })
}

fn ask_test<'t>(
    alloc: Global,
    path: &Path,
    slots: &[Open<'t>],
    there: bool,
    test: &Test,
    moments: &mut Row<Moment<'t>>,
) -> Result<(), NoMemory>
    requires { TestIn (holds (slots_of slots.now)) test.now }
    ensures { OnOk result ((root : Grammar) → LeavesIn root slots.now → Gathers root (asks.test_asks (paths_of slots.now) path.now there test.now ∷ []) moments.old moments.new) }
{
    ask(
        alloc,
        path,
        slots,
        tested_slot(test),
        test_wanted(test, there),
        moments,
    )
}

/// What conditions ask, where what they stand at is there or not.
pub fn ask_tests<'t>(
    alloc: Global,
    path: &Path,
    slots: &[Open<'t>],
    there: bool,
    tests: &[Test],
    moments: &mut Row<Moment<'t>>,
) -> Result<(), NoMemory>
    requires { TestsIn (holds (slots_of slots.now)) tests.now }
    ensures { OnOk result ((root : Grammar) → LeavesIn root slots.now → Gathers root (map (asks.test_asks (paths_of slots.now) path.now there) tests.now) moments.old moments.new) }
{
    for test in tests {
        ask_test(alloc, path, slots, there, test, moments)?;
    }
    Ok(())
}

/// What the presence of a component asks, where it is there or not.
pub fn ask_presence<'t>(
    alloc: Global,
    path: &Path,
    slots: &[Open<'t>],
    there: bool,
    presence: &Presence,
    moments: &mut Row<Moment<'t>>,
) -> Result<(), NoMemory>
    requires { PresenceIn (holds (slots_of slots.now)) presence.now }
    ensures { OnOk result ((root : Grammar) → LeavesIn root slots.now → Gathers root (asks.presence_asks (paths_of slots.now) path.now there presence.now) moments.old moments.new) }
{
    match presence {
        Presence::When(tests) => ask_tests(alloc, path, slots, there, tests.items(), moments),
        Presence::Always => Ok(()),
        Presence::Bit => Ok(()),
    }
}

/// What a size asks.
pub fn ask_size<'t>(
    alloc: Global,
    path: &Path,
    slots: &[Open<'t>],
    n: u64,
    rule: &SizeRule,
    moments: &mut Row<Moment<'t>>,
) -> Result<(), NoMemory>
    requires { RuleIn (holds (slots_of slots.now)) rule.now }
    ensures { OnOk result ((root : Grammar) → LeavesIn root slots.now → Gathers root (asks.size_asks (paths_of slots.now) path.now n rule.now) moments.old moments.new) }
{
    match rule {
        SizeRule::Slot(slot) => ask(alloc, path, slots, *slot, size_wanted(n), moments),
        SizeRule::Prefix { .. } => Ok(()),
        SizeRule::Ended(_) => Ok(()),
    }
}

/// What a component asks whose number is a slot's.
pub fn ask_own<'t>(
    alloc: Global,
    path: &Path,
    slots: &[Open<'t>],
    own: Option<u32>,
    v: &Value,
    moments: &mut Row<Moment<'t>>,
) -> Result<(), NoMemory>
    requires { OwnIn (holds (slots_of slots.now)) own }
    ensures { OnOk result ((root : Grammar) → LeavesIn root slots.now → Gathers root (asks.own_asks (paths_of slots.now) path.now own (data_of v.now)) moments.old moments.new) }
{
    match own {
        Some(slot) => ask(alloc, path, slots, slot, own_wanted(v), moments),
        None => Ok(()),
    }
}

/// What a CHOICE asks of the slot that says its alternative by an item's name.
pub fn ask_item<'t>(
    alloc: Global,
    path: &Path,
    slots: &[Open<'t>],
    slot: u32,
    name: &[u8],
    moments: &mut Row<Moment<'t>>,
) -> Result<(), NoMemory>
    requires { holds (slots_of slots.now) slot ≡ true }
    ensures { OnOk result ((root : Grammar) → LeavesIn root slots.now → Gathers root (asks.asked (paths_of slots.now) path.now slot (asks.Equal (pos (asks.index_of (asks.same_name name.now) (items_of root slot)))) ∷ []) moments.old moments.new) }
{
    let here = open_slot(slots, slot);
    let place = item_place(name, here.leaf.items.items.items());
    ask(alloc, path, slots, slot, size_wanted(place), moments)
}

/// The count of octets that the contents at the path take.
pub fn count<'t>(
    alloc: Global,
    path: &Path,
    octets: u64,
    sizing: &'t Sizing,
    moments: &mut Row<Moment<'t>>,
) -> Result<(), NoMemory>
    ensures { OnOk result ((root : Grammar) → Gathers root (asks.counts path.now octets sizing.now ∷ []) moments.old moments.new) }
{
    let path = copied(alloc, path.steps())?;
    moments.push(Moment::Counts {
        path,
        octets,
        sizing,
    })
}

/// What chooses an alternative asks: a determinant is asked by the CHOICE, conditions by the alternative.
pub fn ask_rule<'t>(
    alloc: Global,
    path: &mut Path,
    slots: &[Open<'t>],
    rule: &ChoiceRule,
    i: u32,
    name: &[u8],
    tests: &[Test],
    moments: &mut Row<Moment<'t>>,
) -> Result<(), NoMemory>
    requires room { length path.old < MOST_STEPS }
    requires known { CaseIn (holds (slots_of slots.now)) rule.now tests.now }
    ensures said { OnOk result ((root : Grammar) → LeavesIn root slots.now → Gathers root (asks.rule_asks root (paths_of slots.now) path.old i rule.now name.now tests.now) moments.old moments.new) }
    ensures path { OnOk result (path.new ≡ path.old) }
{
    match rule {
        ChoiceRule::Item(slot) => ask_item(alloc, path, slots, *slot, name, moments),
        ChoiceRule::Tests => ask_case(alloc, path, slots, i, tests, moments),
        ChoiceRule::Index(_) => ask_case(alloc, path, slots, i, tests, moments),
    }
}

// The conditions of the alternative of this number.
fn ask_case<'t>(
    alloc: Global,
    path: &mut Path,
    slots: &[Open<'t>],
    i: u32,
    tests: &[Test],
    moments: &mut Row<Moment<'t>>,
) -> Result<(), NoMemory>
    requires room { length path.old < MOST_STEPS }
    requires known { TestsIn (holds (slots_of slots.now)) tests.now }
    ensures said { OnOk result ((root : Grammar) → LeavesIn root slots.now → Gathers root (map (asks.test_asks (paths_of slots.now) (path.old ++ i ∷ []) true) tests.now) moments.old moments.new) }
    ensures path { OnOk result (path.new ≡ path.old) }
{
    path.push(i);
    ask_tests(alloc, path, slots, true, tests, moments)?;
    path.pop();
    Ok(())
}
