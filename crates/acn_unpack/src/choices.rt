//! Which alternative of a CHOICE is there.

ghost use Rattle.std.specs.Prelude.{◌≡◌, ◌≤◌, ◌<ℤ◌, ◌^◌, ℕ, ℤ, pos, Some, length, IfOk, IfErr, MatchOption};
ghost use Rattle.acn_grammar.specs.Env.{at_slot};
ghost use Rattle.acn_grammar.specs.Fails as alternatives;
ghost use Rattle.acn_grammar.specs.Length.{index_width};
ghost use Rattle.acn_grammar.specs.declared.limits.TheConstants.{MOST_NODES};
ghost use Rattle.acn_grammar.specs.declared.node.ChoiceRule.TheVariants.{Index, Item};
ghost use Rattle.acn_plan.specs.Back.{root_of, cases_at, case_items, case_places};
ghost use Rattle.acn_plan.specs.Made.{IsMade};
ghost use Rattle.acn_reads.specs.Choices.{RuleKnown, Picked, NoCase, Unchosen, Choosing};
ghost use Rattle.acn_reads.specs.Steps.{Named};
ghost use Rattle.acn_unpack.specs.Keeps.{Halts};
ghost use Rattle.acn_unpack.specs.Items.{ItemsAre};

use crate::steps::{count_cases, first_holding, first_of_item};
use acn_bits::ReadCursor;
use acn_grammar::{ChoiceRule, ReadFault, Reason};
use acn_packet_laws::accepted_is_sound;
use acn_plan::{Cases, Step};
use acn_reads::{Stop, named, number_at};

// The alternative whose item a slot's number is.
fn item_case(
    steps: &[Step],
    first: usize,
    end: usize,
    slot: u32,
    slots: &[(u32, i128)],
) -> Option<u32>
    requires made { IsMade steps.now }
    requires within { end ≤ length steps.now }
    requires items { ItemsAre (root_of steps.now) slot (cases_at steps.now first end) (case_items steps.now first end) }
    requires known { (x : ℤ) × (at_slot slots.now slot ≡ Some x) × (x <ℤ pos (2 ^ 64)) }
    ensures { MatchOption result (Unchosen (root_of steps.now) (cases_at steps.now first end) (Item slot) slots.now) (Choosing (root_of steps.now) (cases_at steps.now first end) (Item slot) slots.now) }
{
    accepted_is_sound();
    match number_at(slots, slot) {
        Some(x) => first_of_item(steps, first, end, &x),
        None => unreachable!(),
    }
}

// The alternative that the numbers choose.
fn chosen(
    steps: &[Step],
    first: usize,
    end: usize,
    rule: &ChoiceRule,
    slots: &[(u32, i128)],
) -> Option<u32>
    requires made { IsMade steps.now }
    requires within { end ≤ length steps.now }
    requires items { (s : ℕ) → rule.now ≡ Item s → ItemsAre (root_of steps.now) s (cases_at steps.now first end) (case_items steps.now first end) }
    requires known { RuleKnown rule.now (cases_at steps.now first end) slots.now }
    requires plain { (width : ℕ) → rule.now ≡ Index width → ⊥ }
    ensures { MatchOption result (Unchosen (root_of steps.now) (cases_at steps.now first end) rule.now slots.now) (Choosing (root_of steps.now) (cases_at steps.now first end) rule.now slots.now) }
{
    match rule {
        ChoiceRule::Index(_) => unreachable!(),
        ChoiceRule::Tests => first_holding(steps, first, end, slots),
        ChoiceRule::Item(slot) => item_case(steps, first, end, *slot, slots),
    }
}

/// The alternative that is there. The index is passed, where one stands in front.
pub fn pick(
    cur: &mut ReadCursor<'_>,
    steps: &[Step],
    first: usize,
    end: usize,
    cases: &Cases,
    slots: &[(u32, i128)],
    inside: bool,
    from: u64,
) -> Result<u32, Stop>
    requires made { IsMade steps.now }
    requires within { end ≤ length steps.now }
    requires row { cases.now.numbers ≡ case_places steps.now first end }
    requires few { alternatives.count_of (cases_at steps.now first end) ≤ MOST_NODES }
    requires items { (s : ℕ) → cases.now.rule ≡ Item s → ItemsAre (root_of steps.now) s (cases_at steps.now first end) (case_items steps.now first end) }
    requires known { RuleKnown cases.now.rule (cases_at steps.now first end) slots.now }
    requires fits { index_width cases.now.rule ≤ 64 }
    ensures picked { IfOk result (Picked (root_of steps.now) (cases_at steps.now first end) cases.now.rule slots.now cur.old cur.new) }
    ensures fails { IfErr result (λ e. Halts ⊥ e (Named inside from (NoCase (root_of steps.now) (cases_at steps.now first end) cases.now.rule slots.now cur.old))) }
{
    match &cases.rule {
        ChoiceRule::Index(width) => match cur.take(*width) {
            Ok(v) => {
                let count = count_cases(cases.numbers.items());
                if v < count {
                    Ok(v as u32)
                } else {
                    Err(Stop::Fails {
                        reason: Reason::NoAlternative,
                        at: from,
                    })
                }
            }
            Err(_) => Err(Stop::Fails {
                reason: named(inside, ReadFault::Short),
                at: from,
            }),
        },
        ChoiceRule::Tests => match chosen(steps, first, end, &cases.rule, slots) {
            Some(i) => Ok(i),
            None => Err(Stop::Fails {
                reason: Reason::NoAlternative,
                at: from,
            }),
        },
        ChoiceRule::Item(_) => match chosen(steps, first, end, &cases.rule, slots) {
            Some(i) => Ok(i),
            None => Err(Stop::Fails {
                reason: Reason::NoAlternative,
                at: from,
            }),
        },
    }
}
