//! A value of a node, written by the walk.

ghost use Rattle.std.specs.Prelude.{◌≡◌, ◌<◌, length, OnOk};
ghost use Rattle.acn_grammar.specs.View.{data_of};
ghost use Rattle.acn_events.specs.Events.{events};
ghost use Rattle.acn_plan.specs.Back.{root_of, node_at};
ghost use Rattle.acn_plan.specs.Made.{IsMade};
ghost use Rattle.acn_pack.specs.Packs.{Packs};
ghost use Rattle.acn_pack.specs.Sounds.{IsSound};

use crate::trace::Trace;
use crate::walk::pack_step;
use acn_grammar::Value;
use acn_plan::Steps;
use acn_writer::{Halted, Writer};

/// Writes a value of the node of a step, at the path of a trace.
///
/// With Ok the events of the value ran, and the path is as before. Else they stopped at the path
/// where the walk stands, for the reason beside it.
pub fn pack_node<'p, const N: usize, const S: usize, const A: usize>(
    steps: &'p Steps,
    this: usize,
    v: &Value,
    w: &mut Writer<'_, 'p, N, S, A>,
    trace: &mut Trace,
) -> Result<(), Halted>
    requires made { IsMade steps.now }
    requires there { this < length steps.now }
    requires sound { IsSound (root_of steps.now) (length trace.old.path) (node_at steps.now this) }
    ensures packs { Packs (events (root_of steps.now) (node_at steps.now this) trace.old.path (data_of v.now)) w.old w.new trace.new.path trace.new.why result }
    ensures path { OnOk result (trace.new.path ≡ trace.old.path) }
{
    pack_step::<(), N, S, A>(steps, this, v, w, trace)
}
