//! How a summary is printed.

ghost use Rattle.acn_print.specs.Printing.{Prints};
ghost use Rattle.acn_work.specs.Line.{summary_line};

use crate::summary::Summary;
use acn_outside::{Failed, Sink};
use acn_print::{Piece, put_all};

/// Prints the line of a summary: `made A packed B refused C bits D`, with a line feed. It takes no memory.
///
/// On Ok the output gained exactly this line. `Failed` comes only where the count of the output's faults rose in this call, and then a
/// front of the line was gained.
pub fn put_summary<O: Sink>(summary: &Summary, out: &mut O) -> Result<(), Failed>
    ensures { Prints (summary_line summary.now) (O.taken out.old, O.faults out.old) (O.taken out.new, O.faults out.new) result }
{
    put_all(
        out,
        &[
            Piece::Text("made "),
            Piece::Count(summary.made),
            Piece::Text(" packed "),
            Piece::Count(summary.packed),
            Piece::Text(" refused "),
            Piece::Count(summary.refused),
            Piece::Text(" bits "),
            Piece::Count(summary.bits),
            Piece::Text("\n"),
        ],
    )
}
