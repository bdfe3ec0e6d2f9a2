//! What parts of a value ask of slots.

ghost use Rattle.std.specs.Prelude.{◌≡◌, ◌∷◌, [], ℕ, List, map, pos};
ghost use Rattle.acn_grammar.specs.Asks.{Equal};
ghost use Rattle.acn_grammar.specs.Faults.{ask_of};
ghost use Rattle.acn_grammar.specs.declared.node.Test.TheVariants.{Flag, Equals};
ghost use Rattle.acn_events.specs.Event.{wants};
ghost use Rattle.acn_events.specs.Events.{test_event, presence_events, size_wants};
ghost use Rattle.acn_pack.specs.Packs.{Packs};

use acn_grammar::{Ask, Presence, SizeRule, Test};
use acn_writer::{Halt, Halted, Writer};

// What a condition on a flag asks.
fn flag(there: bool) -> Ask
    ensures { (path : List ℕ) (slot : ℕ) → test_event path there (Flag slot) ≡ wants path slot (ask_of result) }
{
    if there { Ask::Equal(1) } else { Ask::Equal(0) }
}

// What a comparison asks.
fn compared(k: &i128, there: bool) -> Ask
    ensures { (path : List ℕ) (slot : ℕ) → test_event path there (Equals slot k.now) ≡ wants path slot (ask_of result) }
{
    let k = *k;
    if there { Ask::Equal(k) } else { Ask::Avoid(k) }
}

/// That the number is this one.
pub fn equal(n: u64) -> Ask
    ensures { ask_of result ≡ Equal (pos n) }
{
    Ask::Equal(i128::from(n))
}

fn ask_test<const N: usize, const S: usize, const A: usize>(
    test: &Test,
    there: bool,
    w: &mut Writer<'_, '_, N, S, A>,
    why: &mut Halt,
) -> Result<(), Halted>
    ensures { (path : List ℕ) → Packs (test_event path there test.now ∷ []) w.old w.new path why.new result }
{
    match test {
        Test::Flag(slot) => {
            let ask = flag(there);
            w.want(*slot, ask, why)
        }
        Test::Equals(slot, k) => {
            let ask = compared(k, there);
            w.want(*slot, ask, why)
        }
    }
}

/// What conditions ask, where what they stand at is there or not.
#[inline(never)]
pub fn ask_tests<const N: usize, const S: usize, const A: usize>(
    tests: &[Test],
    there: bool,
    w: &mut Writer<'_, '_, N, S, A>,
    why: &mut Halt,
) -> Result<(), Halted>
    ensures { (path : List ℕ) → Packs (map (test_event path there) tests.now) w.old w.new path why.new result }
{
    for test in tests {
        ask_test(test, there, w, why)?;
    }
    Ok(())
}

/// What the presence of a component asks.
pub fn ask_presence<const N: usize, const S: usize, const A: usize>(
    presence: &Presence,
    there: bool,
    w: &mut Writer<'_, '_, N, S, A>,
    why: &mut Halt,
) -> Result<(), Halted>
    ensures { (path : List ℕ) → Packs (presence_events path there presence.now) w.old w.new path why.new result }
{
    match presence {
        Presence::Always => Ok(()),
        Presence::Bit => Ok(()),
        Presence::When(tests) => ask_tests(tests.items(), there, w, why),
    }
}

/// What a size asks, where it is a slot's.
pub fn ask_size<const N: usize, const S: usize, const A: usize>(
    rule: &SizeRule,
    n: u64,
    w: &mut Writer<'_, '_, N, S, A>,
    why: &mut Halt,
) -> Result<(), Halted>
    ensures { (path : List ℕ) → Packs (size_wants path n rule.now) w.old w.new path why.new result }
{
    match rule {
        SizeRule::Prefix { .. } => Ok(()),
        SizeRule::Slot(slot) => {
            let ask = equal(n);
            w.want(*slot, ask, why)
        }
        SizeRule::Ended(_) => Ok(()),
    }
}
