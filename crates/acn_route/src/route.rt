use acn_check::Checked;
use acn_lines::Lines;
use acn_num::NoMemory;
use acn_plan::Plan;
use std::alloc::Global;

/// What is kept of a route: a tree with the plan by which its packets are read, and what its lines need.
#[derive(Drop)]
pub struct Route {
    pub checked: Checked,
    pub plan: Plan,
    pub lines: Lines,
}

impl Route {
    ghost use Rattle.std.specs.Prelude.{◌≡◌, IfOk};
    ghost use Rattle.acn_grammar.specs.View.{grammar_of};
    ghost use Rattle.acn_plan.specs.Steps.{steps_of};
    ghost use Rattle.acn_route.specs.Ready.{IsReady};

    /// The route of a tree with its plan. It fails only where memory runs out.
    pub fn of(alloc: Global, checked: Checked, plan: Plan) -> Result<Route, NoMemory>
        requires { steps_of (grammar_of checked.tree.root) ≡ plan.steps }
        ensures ready { IfOk result (λ route. IsReady route) }
        ensures tree { IfOk result (λ route. route.checked.tree ≡ checked.tree) }
    {
        let lines = Lines::new(alloc, checked.tree())?;
        Ok(Route {
            checked,
            plan,
            lines,
        })
    }
}
