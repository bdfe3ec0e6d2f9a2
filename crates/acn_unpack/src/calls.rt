//! The calls.

ghost use Rattle.std.specs.Prelude.{◌≡◌, ◌≤◌, ℕ, Bool, List, length, IfOk, IfErr};
ghost use Rattle.acn_num.specs.Bits.{bits};
ghost use Rattle.acn_grammar.specs.Fails.{Refusal};
ghost use Rattle.acn_grammar.specs.Faults.{fault_of};
ghost use Rattle.acn_grammar.specs.Front.{Front};
ghost use Rattle.acn_grammar.specs.Grammar.{Grammar, Data};
ghost use Rattle.acn_grammar.specs.View.{data_of};
ghost use Rattle.acn_grammar.specs.declared.fault.Refuse.TheVariants.{Bad};
ghost use Rattle.acn_plan.specs.Steps.{steps_of};
ghost use Rattle.acn_reads.specs.Answers.{OnlyFault, OnlyFront, Refuses};
ghost use Rattle.acn_reads.specs.declared.answers.TheConstants.{MOST_BYTES};
ghost use Rattle.acn_unpack.specs.Keeps.{Halts};
ghost use Rattle.acn_unpack.specs.Rests.{FaultRests, FrontRests, RefuseRests};

use crate::laws::{faults_rest_on_bits, values_rest_on_bits};
use crate::nothing::Nothing;
use crate::packet::read_packet;
use crate::values::Values;
use acn_grammar::{Fault, Refuse, Value};
use acn_num::Path;
use acn_packet_laws::{fronts_exclude_failures, one_failure, one_front};
use acn_plan::Plan;
use acn_reads::{Stop, refusal};
use std::alloc::Global;

// The fault of a walk that takes no memory, which stopped at this path.
fn fault(stop: Stop, path: Path) -> Fault
    requires { Halts ⊥ stop (λ r at. Unit {0}) }
    ensures { (root : Grammar) (input : List Bool) → Halts ⊥ stop (λ r at. (reach : ℕ) × Refusal root input (record { path = path; reason = r; at = at }) reach) → (reach : ℕ) × Refusal root input (fault_of result) reach }
{
    match stop {
        Stop::Fails { reason, at } => Fault { path, reason, at },
        Stop::NoMemory => unreachable!(),
    }
}

/// Reads the value at the front of the bytes by the steps of a plan, and answers it with the number of its bits. What stands behind them
/// isn't looked at.
///
/// `Bad` comes exactly where no value is at the front, with the one failure that there is: the path of its node, the reason, and
/// the bit at which that node begins. `NoMemory` comes where memory runs out. The order of reasons is this profile's own.
///
/// The value rests on the bits of the front alone, and each fault but `Short` on the bits that its failure reaches: inputs that agree in
/// these have the same answer.
pub fn unpack(alloc: Global, plan: &Plan, bytes: &[u8]) -> Result<(Value, u64), Refuse>
    requires few { length bytes.now ≤ MOST_BYTES }
    ensures front { (root : Grammar) → steps_of root ≡ plan.now.steps → IfOk result (λ pair. Front root (bits bytes.now) (data_of pair.0) pair.1) }
    ensures alone { (root : Grammar) → steps_of root ≡ plan.now.steps → IfOk result (λ pair. OnlyFront root (bits bytes.now) (data_of pair.0) pair.1) }
    ensures fault { (root : Grammar) → steps_of root ≡ plan.now.steps → IfErr result (Refuses root (bits bytes.now)) }
    ensures only { (root : Grammar) → steps_of root ≡ plan.now.steps → IfErr result (OnlyFault root (bits bytes.now)) }
    ensures front_rests { (root : Grammar) → steps_of root ≡ plan.now.steps → IfOk result (λ pair. FrontRests root (bits bytes.now) (data_of pair.0) pair.1) }
    ensures fault_rests { (root : Grammar) → steps_of root ≡ plan.now.steps → IfErr result (RefuseRests root (bits bytes.now)) }
{
    one_front();
    fronts_exclude_failures();
    one_failure();
    values_rest_on_bits();
    faults_rest_on_bits();
    let mut path = Path::new();
    let steps = plan.steps();
    match read_packet(&Values { alloc }, steps, bytes, &mut path) {
        Ok(pair) => Ok(pair),
        Err(stop) => Err(refusal(stop, path)),
    }
}

/// Reads what `unpack` reads, and answers the number of its bits alone. It takes no memory.
///
/// A fault comes exactly where no value is at the front, and it is the one failure that there is, as of `unpack`.
pub fn skim(plan: &Plan, bytes: &[u8]) -> Result<u64, Fault>
    requires few { length bytes.now ≤ MOST_BYTES }
    ensures front { (root : Grammar) → steps_of root ≡ plan.now.steps → IfOk result (λ n. (d : Data) × Front root (bits bytes.now) d n) }
    ensures alone { (root : Grammar) → steps_of root ≡ plan.now.steps → IfOk result (λ n. (d : Data) × OnlyFront root (bits bytes.now) d n) }
    ensures fault { (root : Grammar) → steps_of root ≡ plan.now.steps → IfErr result (λ fault. (reach : ℕ) × Refusal root (bits bytes.now) (fault_of fault) reach) }
    ensures only { (root : Grammar) → steps_of root ≡ plan.now.steps → IfErr result (λ fault. OnlyFault root (bits bytes.now) (Bad fault)) }
    ensures front_rests { (root : Grammar) → steps_of root ≡ plan.now.steps → IfOk result (λ n. (d : Data) × FrontRests root (bits bytes.now) d n) }
    ensures fault_rests { (root : Grammar) → steps_of root ≡ plan.now.steps → IfErr result (λ fault. FaultRests root (bits bytes.now) (fault_of fault)) }
{
    one_front();
    fronts_exclude_failures();
    one_failure();
    values_rest_on_bits();
    faults_rest_on_bits();
    let mut path = Path::new();
    let steps = plan.steps();
    match read_packet(&Nothing, steps, bytes, &mut path) {
        Ok(pair) => Ok(pair.1),
        Err(stop) => Err(fault(stop, path)),
    }
}
