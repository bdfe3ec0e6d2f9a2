//! Lines on the output for errors, each with the status that it comes with.

ghost use Rattle.std.specs.Prelude.{◌≡◌};
ghost use Rattle.acn_print.specs.Printing.{Prints};
ghost use Rattle.acn_report.specs.CheckTexts.{no_memory_line};
ghost use Rattle.acn_report.specs.Texts.{empty_line};
ghost use Rattle.acn_commands.specs.Lines.{usage_line, output_failed_line, stream_line};
ghost use Rattle.acn_commands.specs.Outside.{Says};
ghost use Rattle.acn_commands.specs.Steps.{status_of};
ghost use Rattle.acn_commands.specs.declared.status.Status.TheVariants as status;

use crate::status::Status;
use acn_json_report::put_json_fault;
use acn_outside::{Failed, Sink};
use acn_print::{Piece, put_piece};
use acn_report::{
    put_empty_packet, put_input_too_long, put_line_too_long, put_no_memory, put_packet_fault,
    put_unfit,
};
use acn_stream::StreamFault;
use acn_tree::Tree;

/// The words have no form.
pub fn usage<E: Sink>(err: &mut E) -> Status
    ensures status { result ≡ status.Usage }
    ensures says { Says usage_line (E.taken err.old, E.faults err.old) (E.taken err.new, E.faults err.new) }
{
    let _ = put_piece(err, &Piece::Text("acn: usage\n"));
    Status::Usage
}

/// Memory ran out.
pub fn no_memory<E: Sink>(err: &mut E) -> Status
    ensures status { result ≡ status.NoMemory }
    ensures says { Says no_memory_line (E.taken err.old, E.faults err.old) (E.taken err.new, E.faults err.new) }
{
    let _ = put_no_memory(err);
    Status::NoMemory
}

/// The output failed.
pub fn output_failed<E: Sink>(err: &mut E) -> Status
    ensures status { result ≡ status.OutputFailed }
    ensures says { Says output_failed_line (E.taken err.old, E.faults err.old) (E.taken err.new, E.faults err.new) }
{
    let _ = put_piece(err, &Piece::Text("acn: output failed\n"));
    Status::OutputFailed
}

/// Nothing says how many packets of this tree follow each other.
pub fn empty_packet<E: Sink>(tree: &Tree, err: &mut E) -> Status
    ensures status { result ≡ status.NoGrammar }
    ensures says { Says (empty_line tree.now) (E.taken err.old, E.faults err.old) (E.taken err.new, E.faults err.new) }
{
    let _ = put_empty_packet(tree, err);
    Status::NoGrammar
}

// Writes why a stream wasn't converted to its end.
fn put_stream_fault<'a, E: Sink>(
    tree: &'a Tree,
    fault: &'a StreamFault,
    err: &mut E,
) -> Result<(), Failed>
    ensures { Prints (stream_line tree.now fault.now) (E.taken err.old, E.faults err.old) (E.taken err.new, E.faults err.new) result }
{
    match fault {
        StreamFault::LineTooLong { line } => put_line_too_long(*line, err),
        StreamFault::InputTooLong => put_input_too_long(err),
        StreamFault::EmptyPacket => put_empty_packet(tree, err),
        StreamFault::Packet { number, fault } => put_packet_fault(tree, *number, fault, err),
        StreamFault::BadLine { number, fault } => put_json_fault(tree, *number, fault, err),
        StreamFault::Unfit { number, fault } => put_unfit(tree, *number, fault, err),
        StreamFault::InputFault => put_piece(err, &Piece::Text("acn: input failed\n")),
        StreamFault::OutputFault => put_piece(err, &Piece::Text("acn: output failed\n")),
        StreamFault::NoMemory => put_no_memory(err),
    }
}

// The status with which a stream that wasn't converted to its end comes.
fn status_of_stream(fault: &StreamFault) -> Status
    ensures { result ≡ status_of fault.now }
{
    match fault {
        StreamFault::LineTooLong { .. } => Status::BadInput,
        StreamFault::InputTooLong => Status::BadInput,
        StreamFault::EmptyPacket => Status::NoGrammar,
        StreamFault::Packet { .. } => Status::BadInput,
        StreamFault::BadLine { .. } => Status::BadInput,
        StreamFault::Unfit { .. } => Status::BadInput,
        StreamFault::InputFault => Status::InputFailed,
        StreamFault::OutputFault => Status::OutputFailed,
        StreamFault::NoMemory => Status::NoMemory,
    }
}

/// A stream wasn't converted to its end.
pub fn stream_failed<E: Sink>(tree: &Tree, fault: StreamFault, err: &mut E) -> Status
    ensures status { result ≡ status_of fault }
    ensures says { Says (stream_line tree.now fault) (E.taken err.old, E.faults err.old) (E.taken err.new, E.faults err.new) }
{
    let _ = put_stream_fault(tree, &fault, err);
    status_of_stream(&fault)
}
