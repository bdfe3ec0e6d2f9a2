//! Why a value is refused of which the events stop.

ghost use Rattle.std.specs.Prelude.{◌≡◌, Some, is_some, true};
ghost use Rattle.acn_grammar.specs.Faults.{unfit_of};
ghost use Rattle.acn_grammar.specs.Shaped.{Shaped};
ghost use Rattle.acn_grammar.specs.View.{data_of};
ghost use Rattle.acn_packing.specs.Packed.{IsRefusedFor};
ghost use Rattle.acn_packing.specs.Tries.{EndsTry, said_by};
ghost use Rattle.acn_plan.specs.Back.{root_of};

use acn_events::stops_are_refusals;
use acn_grammar::{Unfit, UnfitReason, Value};
use acn_num::Path;
use acn_packet_laws::{
    each_path_has_its_number, no_fault_without_a_first, one_refusal, refused_is_not_spelled,
    values_lie_within_bounds,
};
use acn_plan::Plan;
use acn_step_breach::breach_of;
use acn_step_fields::field_of;
use acn_writer::Halt;

// What a halt at a path says, where no constraint is broken.
fn said(plan: &Plan, path: Path, halt: Halt) -> Unfit
    requires { is_some (said_by (root_of plan.now.steps) path halt) ≡ true }
    ensures { Some (unfit_of result) ≡ said_by (root_of plan.now.steps) path halt }
{
    match halt {
        Halt::Unmet {
            slot,
            earlier,
            wanted,
        } => {
            let mut field = Path::new();
            field_of(plan, &path, slot, &mut field);
            let reason = UnfitReason::Conflict {
                slot: field,
                earlier,
                wanted,
            };
            Unfit { path, reason }
        }
        Halt::Miscounts { octets } => Unfit {
            path,
            reason: UnfitReason::ContentSize { octets },
        },
        Halt::Breaks => unreachable!(),
        Halt::Full => unreachable!(),
        Halt::Lost => unreachable!(),
    }
}

/// The refusal of a value of which the events stop at a halt. A breach of a constraint goes before all that is asked.
pub fn refusal(plan: &Plan, v: &Value, path: Path, halt: Halt) -> Unfit
    requires shaped { Shaped (root_of plan.now.steps) (data_of v.now) }
    requires ends { EndsTry (root_of plan.now.steps) (data_of v.now) path halt }
    ensures { IsRefusedFor (root_of plan.now.steps) (data_of v.now) (unfit_of result) }
{
    each_path_has_its_number();
    no_fault_without_a_first();
    one_refusal();
    refused_is_not_spelled();
    stops_are_refusals();
    values_lie_within_bounds();
    let mut at = Path::new();
    match breach_of(plan, v, &mut at) {
        Some(reason) => Unfit { path: at, reason },
        None => said(plan, path, halt),
    }
}
