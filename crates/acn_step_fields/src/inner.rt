//! From a step to what is inside its node.

ghost use Rattle.std.specs.Prelude.{◌≡◌, ◌<◌, false, length, option_map, IfSome, IfNone};
ghost use Rattle.acn_grammar.specs.Paths.{part_node};
ghost use Rattle.acn_plan.specs.Back.{StepAt, node_at};
ghost use Rattle.acn_plan.specs.Made.{IsMade};
ghost use Rattle.acn_plan.specs.declared.step.Act.TheVariants.{Seq};
ghost use Rattle.acn_step_fields.specs.Sought.{is_sequence};

use acn_plan::{Act, Step};
use acn_step_breach::inner_at;

/// The step of the node that one step of a value's path leads to, if there is one.
pub fn part_at(steps: &[Step], this: usize, step: &Step, number: u32) -> Option<usize>
    requires made { IsMade steps.now }
    requires there { this < length steps.now }
    requires is { StepAt steps.now this step.now }
    ensures is { option_map (λ inside. node_at steps.now inside) result ≡ part_node (node_at steps.now this) number }
    ensures inside { IfSome result (λ inside. inside < length steps.now) }
{
    match &step.act {
        Act::Seq(_) => inner_at(steps, this + 1, step.next as usize, number),
        Act::Choice(_) => inner_at(steps, this + 1, step.next as usize, number),
        Act::List(_) => Some(this + 1),
        Act::Contained(_) => { if number == 0 { Some(this + 1) } else { None } }
        Act::Num(_) => None,
        Act::Octets(_) => None,
        Act::Bits(_) => None,
        Act::Text(_) => None,
    }
}

/// The slots at home in a SEQUENCE, if the step is one.
pub fn home_of(act: &Act) -> Option<&[u32]>
    ensures some { IfSome result (λ home. act.now ≡ Seq home.now) }
    ensures none { IfNone result (is_sequence act.now ≡ false) }
{
    match act {
        Act::Seq(home) => Some(home.items()),
        Act::Num(_) => None,
        Act::Octets(_) => None,
        Act::Bits(_) => None,
        Act::Text(_) => None,
        Act::List(_) => None,
        Act::Choice(_) => None,
        Act::Contained(_) => None,
    }
}
