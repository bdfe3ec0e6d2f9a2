//! Values that are made one after the other, and counted.

ghost use Rattle.std.specs.Prelude.{◌≡◌, ◌+◌, ◌*◌, ◌^◌, ◌<◌, ◌≤◌, IfOk, OnOk};
ghost use Rattle.acn_grammar.specs.Interval.{span};
ghost use Rattle.acn_grammar.specs.ItemsNamed.{ItemsNamed};
ghost use Rattle.acn_grammar.specs.View.{grammar_of};
ghost use Rattle.acn_grammar.specs.declared.limits.TheConstants.{MOST_PACKET_BITS};
ghost use Rattle.acn_plan.specs.Back.{root_of};
ghost use Rattle.acn_plan.specs.Steps.{steps_of};
ghost use Rattle.acn_tree.specs.Made.{made as made_of};
ghost use Rattle.acn_work.specs.Steps as spec;
ghost use Rattle.acn_work.specs.Steps.{CameOf, IsShort};
ghost use Rattle.acn_work.specs.Summaries.{IsSummary};

use crate::summary::Summary;
use crate::trying::{Outcome, outcome_of};
use crate::watch::Watch;
use acn_bounds::bounds;
use acn_check::Checked;
use acn_num::NoMemory;
use acn_packing::PACKET_OCTETS;
use acn_plan::{Plan, steps_say_their_root};
use acn_tree::{Draw, make};
use std::alloc::Global;

// What comes of the next value. It is let go before the call ends.
fn next_outcome(
    alloc: Global,
    checked: &Checked,
    plan: &Plan,
    draw: &mut Draw,
    buffer: &mut [u8; PACKET_OCTETS],
) -> Result<Outcome, NoMemory>
    requires named { ItemsNamed (grammar_of checked.now.tree.root) }
    requires planned { root_of plan.now.steps ≡ grammar_of checked.now.tree.root }
    requires fits { (span (grammar_of checked.now.tree.root)).greatest ≤ MOST_PACKET_BITS }
    ensures came { IfOk result (λ outcome. CameOf (grammar_of checked.now.tree.root) (made_of (grammar_of checked.now.tree.root) draw.old).value outcome) }
    ensures short { IfOk result IsShort }
    ensures draw { OnOk result (draw.new ≡ (made_of (grammar_of checked.now.tree.root) draw.old).state) }
{
    let value = make(alloc, checked.tree(), draw)?;
    outcome_of(alloc, plan, &value, buffer)
}

// The summary with one value more.
fn counted(before: Summary, outcome: Outcome) -> Summary
    requires made { before.made + 1 < 2 ^ 64 }
    requires packed { before.packed ≤ before.made }
    requires refused { before.refused ≤ before.made }
    requires bits { before.bits + MOST_PACKET_BITS < 2 ^ 64 }
    requires short { IsShort outcome }
    ensures { result ≡ spec.counted before outcome }
{
    match outcome {
        Outcome::Packed(bits) => Summary {
            made: before.made + 1,
            packed: before.packed + 1,
            refused: before.refused,
            bits: before.bits + bits,
        },
        Outcome::Refused => Summary {
            made: before.made + 1,
            packed: before.packed,
            refused: before.refused + 1,
            bits: before.bits,
        },
    }
}

/// Makes so many values of an accepted tree from a start, each behind the other (this profile's own generator, as `make` of `acn_tree`
/// says), writes each by `pack`, reads what was written by `unpack`, and tells what came of them. All are written into one buffer, and
/// each value and what was read are let go before the next value is made, so the memory that is taken doesn't grow with their count.
/// Want of memory is the only refusal. `watch` is told of each value that was made, and nothing more.
///
/// The plan is that of the tree, as `compile` of `acn_plan` makes it. The conditions are that the bits of so many packets, of which none has more than `MOST_PACKET_BITS`, can be counted in 64 bits, and
/// that every enumeration has fewer than 2^32 items, as `items_named` of `acn_tree` tells.
pub fn work<W: Watch>(
    alloc: Global,
    checked: &Checked,
    plan: &Plan,
    start: u64,
    count: u64,
    watch: &W,
) -> Result<Summary, NoMemory>
    requires few { count * MOST_PACKET_BITS < 2 ^ 64 }
    requires named { ItemsNamed (grammar_of checked.now.tree.root) }
    requires planned { steps_of (grammar_of checked.now.tree.root) ≡ plan.now.steps }
    ensures { IfOk result (λ summary. IsSummary (grammar_of checked.now.tree.root) start count summary) }
{
    steps_say_their_root();
    let _bounds = bounds(checked);
    let mut draw = Draw::new(start);
    let mut buffer = [0u8; PACKET_OCTETS];
    let mut summary = Summary {
        made: 0,
        packed: 0,
        refused: 0,
        bits: 0,
    };
    for _ in 0..count {
        let outcome = next_outcome(alloc, checked, plan, &mut draw, &mut buffer)?;
        summary = counted(summary, outcome);
        watch.made(&summary);
    }
    Ok(summary)
}
