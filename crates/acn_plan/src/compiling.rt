//! From a tree that can be decoded to its plan.

ghost use Rattle.std.specs.Prelude.{◌≡◌, IfOk};
ghost use Rattle.acn_grammar.specs.Interval.{span};
ghost use Rattle.acn_grammar.specs.ItemsNamed.{ItemsNamed};
ghost use Rattle.acn_grammar.specs.Tree.{IsTree};
ghost use Rattle.acn_grammar.specs.View.{grammar_of};
ghost use Rattle.acn_plan.specs.Steps.{steps_of};

use crate::plan::Plan;
use crate::put::put_node;
use crate::step::{Place, Step};
use crate::steps::Steps;
use acn_bounds::bounds;
use acn_check::Checked;
use acn_grammar::Node;
use acn_num::{NoMemory, Row};
use std::alloc::Global;

// The steps of a root.
fn list_steps(alloc: Global, root: &Node) -> Result<Row<Step>, NoMemory>
    requires formed { IsTree (grammar_of root.now) }
    requires named { ItemsNamed (grammar_of root.now) }
    ensures { IfOk result (λ steps. steps ≡ steps_of (grammar_of root.now)) }
{
    let mut steps = Vec::new(alloc);
    put_node(alloc, root, root, Place::Root, &mut steps)?;
    Ok(Row::from_vec(steps))
}

/// The plan of a tree: its steps are those of the tree's root, and its bounds are the tree's.
///
/// The items of the tree's enumerations have numbers of 32 bits, as `items_named` of `acn_tree` tells. `NoMemory` comes where memory
/// runs out. Plans are this profile's own.
pub fn compile(alloc: Global, checked: &Checked) -> Result<Plan, NoMemory>
    requires named { ItemsNamed (grammar_of checked.now.tree.root) }
    ensures steps { IfOk result (λ plan. plan.steps ≡ steps_of (grammar_of checked.now.tree.root)) }
    ensures bounds { IfOk result (λ plan. plan.bounds ≡ span (grammar_of checked.now.tree.root)) }
{
    let bounds = bounds(checked);
    let listed = list_steps(alloc, checked.tree().root())?;
    let steps = Steps::new(alloc, listed)?;
    Ok(Plan::of(steps, bounds))
}
