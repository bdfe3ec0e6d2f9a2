//! Plans in words.

ghost use Rattle.acn_grammar.specs.ItemsNamed.{ItemsNamed};
ghost use Rattle.acn_grammar.specs.View.{grammar_of};

use acn_case_trees::{
    push_align, push_choice, push_component, push_inserted, push_leaf, push_name, push_sequence,
    push_sized, push_tests, push_text,
};
use acn_check::Checked;
use acn_num::{Name, NoMemory};
use acn_plan::{Act, Place, Step, compile};
use acn_tree::{Test, items_named};
use std::alloc::Global;

fn push_alternative(
    alloc: Global,
    name: &Name,
    item: Option<u32>,
    align: u32,
    tests: &[Test],
    words: &mut String,
) -> Result<(), NoMemory> {
    words.push_str("alternative ")?;
    push_name(alloc, name, words)?;
    if let Some(item) = item {
        write!(words, " item {item}")?;
    }
    push_align(align, words)?;
    push_tests(tests, words)
}

fn push_other(place: &str, align: u32, words: &mut String) -> Result<(), NoMemory> {
    words.push_str(place)?;
    push_align(align, words)
}

// Adds where a step stands, and to how many bits it is aligned.
fn push_place(alloc: Global, step: &Step, words: &mut String) -> Result<(), NoMemory> {
    let align = step.align;
    match &step.place {
        Place::Root => push_other("root", align, words),
        Place::Component {
            name,
            presence,
            default,
            slot,
        } => push_component(alloc, name, *slot, align, default, presence, words),
        Place::Inserted { name, slot } => push_inserted(alloc, name, *slot, align, words),
        Place::Alternative { name, tests, item } => {
            push_alternative(alloc, name, *item, align, tests.items(), words)
        }
        Place::Element => push_other("element", align, words),
        Place::Content => push_other("content", align, words),
    }
}

fn push_act(alloc: Global, act: &Act, words: &mut String) -> Result<(), NoMemory> {
    match act {
        Act::Num(leaf) => push_leaf(alloc, leaf, words),
        Act::Octets(sizing) => push_sized("octets", sizing, words),
        Act::Bits(sizing) => push_sized("bits", sizing, words),
        Act::Text(leaf) => push_text(leaf, words),
        Act::Seq(home) => push_sequence(home.items(), words),
        Act::List(sizing) => push_sized("list", sizing, words),
        Act::Choice(cases) => push_choice(cases.rule, words),
        Act::Contained(sizing) => push_sized("contained", sizing, words),
    }
}

fn steps_in_words(alloc: Global, checked: &Checked) -> Result<String, NoMemory>
    requires { ItemsNamed (grammar_of checked.now.tree.root) }
{
    let plan = compile(alloc, checked)?;
    let mut words = format!(in alloc; "{}..{}", plan.least(), plan.greatest())?;
    for (number, step) in plan.steps().iter().enumerate() {
        write!(words, " | {number} ")?;
        push_place(alloc, step, &mut words)?;
        words.push_str(" : ")?;
        push_act(alloc, &step.act, &mut words)?;
        write!(words, " next {}", step.next)?;
    }
    Ok(words)
}

/// The plan of a tree in words: its bounds, then its steps with ` | ` between them, each with its number, its place, its act, and the
/// number of the step behind it and all that is inside it.
pub fn plan_in_words(alloc: Global, checked: &Checked) -> Result<String, NoMemory> {
    if !items_named(checked.tree()) {
        return Ok("not named".to_string(alloc)?);
    }
    steps_in_words(alloc, checked)
}
