//! Lines on packets, on inputs that are too long, and on bounds.

ghost use Rattle.acn_print.specs.Printing.{Prints};
ghost use Rattle.acn_report.specs.Texts.{bounds_line, empty_line, fault_text, long_input_line, long_line, packet_line};

use crate::part::{Part, put_parts};
use acn_bounds::bounds;
use acn_check::Checked;
use acn_outside::{Failed, Sink};
use acn_tree::{Fault, Tree};

/// Prints where a packet can't be read, why, and at which bit, without a line end: `PATH: REASON at bit B`. It takes no memory.
pub fn put_fault<'a, O: Sink>(tree: &'a Tree, fault: &'a Fault, out: &mut O) -> Result<(), Failed>
    ensures { Prints (fault_text tree.now fault.now) (O.taken out.old, O.faults out.old) (O.taken out.new, O.faults out.new) result }
{
    put_parts(
        out,
        &[
            Part::Path(tree, &fault.path),
            Part::Text(": "),
            Part::Reason(&fault.reason),
            Part::Text(" at bit "),
            Part::Count(fault.at),
        ],
    )
}

/// Prints the line of the packet of a number, from 1, that can't be read. It takes no memory.
pub fn put_packet_fault<'a, O: Sink>(
    tree: &'a Tree,
    number: u64,
    fault: &'a Fault,
    out: &mut O,
) -> Result<(), Failed>
    ensures { Prints (packet_line tree.now number fault.now) (O.taken out.old, O.faults out.old) (O.taken out.new, O.faults out.new) result }
{
    put_parts(
        out,
        &[
            Part::Text("acn: packet "),
            Part::Count(number),
            Part::Text(": "),
            Part::Path(tree, &fault.path),
            Part::Text(": "),
            Part::Reason(&fault.reason),
            Part::Text(" at bit "),
            Part::Count(fault.at),
            Part::Text("\n"),
        ],
    )
}

/// Prints the line of a type of which a packet may have no bits. It takes no memory.
pub fn put_empty_packet<O: Sink>(tree: &Tree, out: &mut O) -> Result<(), Failed>
    ensures { Prints (empty_line tree.now) (O.taken out.old, O.faults out.old) (O.taken out.new, O.faults out.new) result }
{
    put_parts(
        out,
        &[
            Part::Text("acn: "),
            Part::Name(tree.name().bytes()),
            Part::Text(": EmptyPacket\n"),
        ],
    )
}

/// Prints that the line of a number, from 1, is too long. It takes no memory.
pub fn put_line_too_long<O: Sink>(number: u64, out: &mut O) -> Result<(), Failed>
    ensures { Prints (long_line number) (O.taken out.old, O.faults out.old) (O.taken out.new, O.faults out.new) result }
{
    put_parts(
        out,
        &[
            Part::Text("acn: line "),
            Part::Count(number),
            Part::Text(": LineTooLong\n"),
        ],
    )
}

/// Prints that the input is too long. It takes no memory.
pub fn put_input_too_long<O: Sink>(out: &mut O) -> Result<(), Failed>
    ensures { Prints long_input_line (O.taken out.old, O.faults out.old) (O.taken out.new, O.faults out.new) result }
{
    put_parts(out, &[Part::Text("acn: input: InputTooLong\n")])
}

/// Prints the line of a type's two bounds in bits: `TYPE LEAST GREATEST`. It takes no memory.
pub fn put_bounds<O: Sink>(checked: &Checked, out: &mut O) -> Result<(), Failed>
    ensures { Prints (bounds_line checked.now.tree) (O.taken out.old, O.faults out.old) (O.taken out.new, O.faults out.new) result }
{
    let both = bounds(checked);
    put_parts(
        out,
        &[
            Part::Name(checked.tree().name().bytes()),
            Part::Text(" "),
            Part::Count(both.least),
            Part::Text(" "),
            Part::Count(both.greatest),
            Part::Text("\n"),
        ],
    )
}
