ghost use Rattle.std.specs.Prelude.{◌≡◌, option_to_list, option_map};
ghost use Rattle.acn_grammar.specs.View.{form_of};
ghost use Rattle.acn_grammar.specs.Walk.{slot_of, form_uses, rule_uses, choice_uses};
ghost use Rattle.acn_check.specs.Program.{use_of};

use acn_tree::{Body, ChoiceRule, SizeRule, Test};

/// What names a slot: a condition, the determinant of a CHOICE, or a size.
#[derive(Clone, Copy, Drop)]
pub enum Use {
    Condition(Test),
    Item(u32),
    Size(u32),
}

/// The slot that the use names.
pub fn slot_named(named: Use) -> u32
    ensures { result ≡ slot_of (use_of named) }
{
    match named {
        Use::Condition(Test::Flag(slot)) => slot,
        Use::Condition(Test::Equals(slot, _)) => slot,
        Use::Item(slot) => slot,
        Use::Size(slot) => slot,
    }
}

fn rule_use(rule: &SizeRule) -> Option<Use>
    ensures { option_to_list (option_map use_of result) ≡ rule_uses rule.now }
{
    match rule {
        SizeRule::Slot(slot) => Some(Use::Size(*slot)),
        SizeRule::Prefix { .. } => None,
        SizeRule::Ended(_) => None,
    }
}

fn choice_use(rule: ChoiceRule) -> Option<Use>
    ensures { option_to_list (option_map use_of result) ≡ choice_uses rule }
{
    match rule {
        ChoiceRule::Item(slot) => Some(Use::Item(slot)),
        ChoiceRule::Index(_) | ChoiceRule::Tests => None,
    }
}

/// The use in a node's form, where there is one.
pub fn body_use(body: &Body) -> Option<Use>
    ensures { option_to_list (option_map use_of result) ≡ form_uses (form_of body.now) }
{
    match body {
        Body::Octets(sizing) => rule_use(&sizing.rule),
        Body::Bits(sizing) => rule_use(&sizing.rule),
        Body::Text(leaf) => rule_use(&leaf.sized.rule),
        Body::List(sizing, _) => rule_use(&sizing.rule),
        Body::Contained(sizing, _) => rule_use(&sizing.rule),
        Body::Choice(choice) => choice_use(choice.rule),
        Body::Num(_) | Body::Seq(_) => None,
    }
}
