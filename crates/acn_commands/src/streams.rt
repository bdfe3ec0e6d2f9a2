//! The commands that convert the input.

ghost use Rattle.std.specs.Prelude.{◌≡◌, ◌∷◌, [], map};
ghost use Rattle.acn_grammar.specs.ItemsNamed.{ItemsNamed};
ghost use Rattle.acn_grammar.specs.View.{grammar_of};
ghost use Rattle.acn_explain.specs.Explaining.{ExplainEnds};
ghost use Rattle.acn_commands.specs.Steps as spec;
ghost use Rattle.acn_stream.specs.Decoding.{DecodeEnds};
ghost use Rattle.acn_stream.specs.Encoding.{EncodeEnds};

use crate::reports::{empty_packet, no_memory, stream_failed};
use crate::status::Status;
use acn_bounds::bounds;
use acn_check::Checked;
use acn_explain::explain_all;
use acn_outside::{Sink, Source};
use acn_plan::compile;
use acn_stream::{StreamFault, decode_all, encode_all};
use std::alloc::Global;

/// The most bytes of an input: 2^40.
pub const MOST_INPUT_BYTES: u64 = 1_099_511_627_776;

// The status behind a stream: it was converted to its end, or the line that says why not was written.
fn behind_stream<E: Sink>(checked: &Checked, ended: Result<u64, StreamFault>, err: &mut E) -> Status
    ensures { spec.TellsStream checked.now.tree ended (E.taken err.old, E.faults err.old) (E.taken err.new, E.faults err.new) result }
{
    match ended {
        Ok(_) => Status::Done,
        Err(fault) => stream_failed(checked.tree(), fault, err),
    }
}

/// Packets of the input become lines of the output.
pub fn decode<S: Source, O: Sink, E: Sink>(
    alloc: Global,
    checked: &Checked,
    input: &mut S,
    out: &mut O,
    err: &mut E,
) -> Status
    requires named { ItemsNamed (grammar_of checked.now.tree.root) }
    ensures { spec.EndsStream (DecodeEnds (grammar_of checked.now.tree.root) MOST_INPUT_BYTES) checked.now.tree (S.rest input.old) (S.rest input.new) (S.faults input.old) (S.faults input.new) (O.taken out.old, O.faults out.old) (O.taken out.new, O.faults out.new) (E.taken err.old, E.faults err.old) (E.taken err.new, E.faults err.new) result }
{
    if bounds(checked).least == 0 {
        return empty_packet(checked.tree(), err);
    }
    let Ok(plan) = compile(alloc, checked) else {
        return no_memory(err);
    };
    let ended = decode_all(alloc, checked, &plan, input, out, MOST_INPUT_BYTES);
    behind_stream(checked, ended, err)
}

/// Packets of the input become lines that say what each bit is.
pub fn explain<S: Source, O: Sink, E: Sink>(
    alloc: Global,
    checked: &Checked,
    input: &mut S,
    out: &mut O,
    err: &mut E,
) -> Status
    requires named { ItemsNamed (grammar_of checked.now.tree.root) }
    ensures { spec.EndsStream (ExplainEnds checked.now.tree MOST_INPUT_BYTES) checked.now.tree (S.rest input.old) (S.rest input.new) (S.faults input.old) (S.faults input.new) (O.taken out.old, O.faults out.old) (O.taken out.new, O.faults out.new) (E.taken err.old, E.faults err.old) (E.taken err.new, E.faults err.new) result }
{
    if bounds(checked).least == 0 {
        return empty_packet(checked.tree(), err);
    }
    let Ok(plan) = compile(alloc, checked) else {
        return no_memory(err);
    };
    let ended = explain_all(alloc, checked, &plan, input, out, MOST_INPUT_BYTES);
    behind_stream(checked, ended, err)
}

/// Lines of the input become packets of the output.
pub fn encode<S: Source, O: Sink, E: Sink>(
    alloc: Global,
    checked: &Checked,
    input: &mut S,
    out: &mut O,
    err: &mut E,
) -> Status
    requires named { ItemsNamed (grammar_of checked.now.tree.root) }
    ensures { spec.EndsStream (EncodeEnds (grammar_of checked.now.tree.root) MOST_INPUT_BYTES) checked.now.tree (S.rest input.old) (S.rest input.new) (S.faults input.old) (S.faults input.new) (O.taken out.old, O.faults out.old) (O.taken out.new, O.faults out.new) (E.taken err.old, E.faults err.old) (E.taken err.new, E.faults err.new) result }
{
    if bounds(checked).least == 0 {
        return empty_packet(checked.tree(), err);
    }
    let Ok(plan) = compile(alloc, checked) else {
        return no_memory(err);
    };
    let ended = encode_all(alloc, checked, &plan, input, out, MOST_INPUT_BYTES);
    behind_stream(checked, ended, err)
}
