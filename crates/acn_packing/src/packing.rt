//! The call.

ghost use Rattle.std.specs.Prelude.{◌≡◌, ◌*◌, ◌^◌, ◌≤◌, [], length, None, IfOk, IfErr, IfSome};
ghost use Rattle.acn_grammar.specs.Faults.{unfit_of};
ghost use Rattle.acn_grammar.specs.Interval.{span};
ghost use Rattle.acn_grammar.specs.Meets.{Unfit as Refusal};
ghost use Rattle.acn_grammar.specs.Shaped.{Shaped};
ghost use Rattle.acn_grammar.specs.View.{data_of};
ghost use Rattle.acn_packing.specs.Packed.{IsPacked, PackedIsReadAgain, IsRefusedFor};
ghost use Rattle.acn_packing.specs.Tries.{EndsTry};
ghost use Rattle.acn_plan.specs.Back.{root_of};

use crate::octets::check_octets;
use crate::refusal::refusal;
use crate::tries::pack_in;
use acn_grammar::{Unfit, Value};
use acn_num::Path;
use acn_pack::Trace;
use acn_packet_laws::{fronts_exclude_failures, one_front, one_writing, written_is_read};
use acn_plan::Plan;
use acn_writer::Halt;
use std::mem::replace;

/// Packs a value, which has the shape of the plan's root, as `shaped` of `acn_tree` tells, into the front of a buffer, and answers
/// how many bits it has: each determinant has the least permitted number that meets all that is asked of it, and padding and fill
/// are zeros. Zeros fill the last octet, and all later octets of the buffer are as before. What is packed is read again as the value,
/// whatever follows. No memory is taken.
///
/// `Unfit` comes exactly where the value is refused, with the one reason that there is: the first breach of a constraint in preorder,
/// and where there is none the first ask in the order of the walk that can't be met after those before it, or the first contents
/// whose octets are no permitted size. No bits spell such a value. The order of reasons is this profile's own.
pub fn pack<const N: usize>(plan: &Plan, v: &Value, buf: &mut [u8; N]) -> Result<u64, Unfit>
    requires few { N ≤ 2 ^ 32 }
    requires fits { (span (root_of plan.now.steps)).greatest ≤ 8 * N }
    requires shaped { Shaped (root_of plan.now.steps) (data_of v.now) }
    ensures packed { IfOk result (λ n. IsPacked (root_of plan.now.steps) (data_of v.now) n buf.old buf.new) }
    ensures read { IfOk result (λ n. PackedIsReadAgain (root_of plan.now.steps) (data_of v.now) n buf.new) }
    ensures refused { IfErr result (λ why. IsRefusedFor (root_of plan.now.steps) (data_of v.now) (unfit_of why)) }
{
    fronts_exclude_failures();
    one_front();
    one_writing();
    written_is_read();
    check_octets(buf);
    let mut trace = Trace {
        path: Path::new(),
        why: Halt::Lost,
    };
    let mut has_slots = true;
    match pack_in(plan, v, buf, &mut trace, &mut has_slots) {
        Ok(count) => {
            check_octets(buf);
            Ok(count)
        }
        Err(_) => Err(refusal(plan, v, trace.path, trace.why)),
    }
}

/// What packing keeps from one value to the next, so that it isn't made anew for each.
#[derive(Drop)]
pub struct Packer {
    trace: Trace,
    // Whether a value had slots or contents.
    has_slots: bool,
}

impl Packer {
    /// One for values of all types. It takes no memory.
    pub fn new() -> Packer {
        Packer {
            trace: Trace {
                path: Path::new(),
                why: Halt::Lost,
            },
            has_slots: false,
        }
    }

    /// Packs a value as the call `pack` does, of which the clauses are the same. None comes exactly where that call refuses the
    /// value, and it says why.
    pub fn pack<const N: usize>(&mut self, plan: &Plan, v: &Value, buf: &mut [u8; N]) -> Option<u64>
        requires few { N ≤ 2 ^ 32 }
        requires fits { (span (root_of plan.now.steps)).greatest ≤ 8 * N }
        requires shaped { Shaped (root_of plan.now.steps) (data_of v.now) }
        ensures packed { IfSome result (λ n. IsPacked (root_of plan.now.steps) (data_of v.now) n buf.old buf.new) }
        ensures read { IfSome result (λ n. PackedIsReadAgain (root_of plan.now.steps) (data_of v.now) n buf.new) }
        ensures refused { result ≡ None → (why : Refusal) × IsRefusedFor (root_of plan.now.steps) (data_of v.now) why }
    {
        fronts_exclude_failures();
        one_front();
        one_writing();
        written_is_read();
        check_octets(buf);
        if !self.trace.path.steps().is_empty() {
            self.begin_anew();
        }
        match pack_in(plan, v, buf, &mut self.trace, &mut self.has_slots) {
            Ok(count) => {
                check_octets(buf);
                Some(count)
            }
            Err(_) => {
                self.check_refused(plan, v);
                None
            }
        }
    }

    // Goes back to the root.
    #[cold]
    #[inline(never)]
    fn begin_anew(&mut self)
        ensures { self.new.trace.path ≡ [] }
    {
        self.trace.path = Path::new();
    }

    // That a value is refused of which the events stop at the halt of the trace.
    #[cold]
    #[inline(never)]
    fn check_refused(&mut self, plan: &Plan, v: &Value)
        requires shaped { Shaped (root_of plan.now.steps) (data_of v.now) }
        requires ends { EndsTry (root_of plan.now.steps) (data_of v.now) self.old.trace.path self.old.trace.why }
        ensures { (why : Refusal) × IsRefusedFor (root_of plan.now.steps) (data_of v.now) why }
    {
        let path = replace(&mut self.trace.path, Path::new());
        let _why = refusal(plan, v, path, self.trace.why);
    }
}
