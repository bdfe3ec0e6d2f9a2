//! Items of enumerations, by name.

ghost use Rattle.std.specs.Prelude.{◌≡◌, ◌<◌, ◌^◌, [], ℕ, length, IfOk};
ghost use Rattle.acn_firsts.specs.Placed.{noted_all};
ghost use Rattle.acn_grammar.specs.Grammar.{Grammar};
ghost use Rattle.acn_grammar.specs.Slots.{items_of};
ghost use Rattle.acn_grammar.specs.View.{grammar_of};
ghost use Rattle.acn_plan.specs.Program.{numbered, item_places};
ghost use Rattle.acn_plan.specs.Steps.{item_for};

use acn_determinants::slot_leaf;
use acn_firsts::Firsts;
use acn_grammar::{ChoiceRule, Node};
use acn_num::{Name, NoMemory};
use std::alloc::Global;

// Items by their names, each with its index.
#[tactic(auto, unfolding(acn_firsts::specs::Placed::noted_all))]
fn number_items(alloc: Global, items: &[(Name, i128)]) -> Result<Firsts, NoMemory>
    ensures { IfOk result (λ names. names ≡ noted_all [] (numbered 0 items.now)) }
{
    let mut names = Firsts::new(alloc);
    for (i, item) in items.iter().enumerate() {
        names.note(alloc, item.0.bytes(), i)?;
    }
    Ok(names)
}

/// The items by which a CHOICE of this rule is told, by their names, each with its index; none where no slot tells it.
#[tactic(auto, unfolding(acn_firsts::specs::Placed::noted_all))]
pub fn item_names(alloc: Global, root: &Node, rule: &ChoiceRule) -> Result<Firsts, NoMemory>
    ensures { IfOk result (λ names. names ≡ noted_all [] (item_places (grammar_of root.now) rule.now)) }
{
    match rule {
        ChoiceRule::Index(_) => Ok(Firsts::new(alloc)),
        ChoiceRule::Tests => Ok(Firsts::new(alloc)),
        ChoiceRule::Item(slot) => match slot_leaf(root, *slot) {
            Some(leaf) => number_items(alloc, leaf.items.items.items()),
            None => Ok(Firsts::new(alloc)),
        },
    }
}

/// The index of the item of an alternative's name, where the number of a slot tells which alternative is there.
pub fn item_of(rule: &ChoiceRule, names: &Firsts, name: &[u8]) -> Option<u32>
    ensures { (root : Grammar) → ((s : ℕ) → length (items_of root s) < 2 ^ 32) → names.now ≡ noted_all [] (item_places root rule.now) → result ≡ item_for root rule.now name.now }
{
    match rule {
        ChoiceRule::Index(_) => None,
        ChoiceRule::Tests => None,
        ChoiceRule::Item(_) => match names.get(name) {
            Some(index) => u32::try_from(index).ok(),
            None => None,
        },
    }
}
