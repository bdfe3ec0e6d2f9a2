//! The line of an answer.

ghost use Rattle.std.specs.Prelude.{◌≡◌};
ghost use Rattle.acn_compare.specs.Texts.{reason_word, no_line, answer_line};
ghost use Rattle.acn_print.specs.Printing.{Prints};

use crate::answer::{Answer, Reason};
use acn_num::Path;
use acn_outside::{Failed, Sink};
use acn_report::{Part, put_parts};
use acn_tree::Tree;

fn word_of(reason: Reason) -> &'static str
    ensures { result.now ≡ reason_word reason }
{
    match reason {
        Reason::Kind => "Kind",
        Reason::Align => "Align",
        Reason::Coding => "Coding",
        Reason::Values => "Values",
        Reason::Names => "Names",
        Reason::Fields => "Fields",
        Reason::Presence => "Presence",
        Reason::Determinant => "Determinant",
        Reason::Alternatives => "Alternatives",
    }
}

fn put_no<'a, O: Sink>(
    old: &'a Tree,
    at: &'a Path,
    reason: Reason,
    number: &'a Option<i128>,
    out: &mut O,
) -> Result<(), Failed>
    ensures { Prints (no_line old.now at.now reason number.now) (O.taken out.old, O.faults out.old) (O.taken out.new, O.faults out.new) result }
{
    let word = word_of(reason);
    match number {
        Some(number) => put_parts(
            out,
            &[
                Part::Text("no "),
                Part::Path(old, at),
                Part::Text(" "),
                Part::Text(word),
                Part::Text(" "),
                Part::Number(number),
                Part::Text("\n"),
            ],
        ),
        None => put_parts(
            out,
            &[
                Part::Text("no "),
                Part::Path(old, at),
                Part::Text(" "),
                Part::Text(word),
                Part::Text("\n"),
            ],
        ),
    }
}

/// Prints the line of an answer: `yes`, or `no PATH REASON` with the path of the node in the older tree and the reason by its name, and
/// behind a space the number that is kept. It takes no memory. (This program's own.)
pub fn put_answer<'a, O: Sink>(old: &'a Tree, answer: &'a Answer, out: &mut O) -> Result<(), Failed>
    ensures { Prints (answer_line old.now answer.now) (O.taken out.old, O.faults out.old) (O.taken out.new, O.faults out.new) result }
{
    match answer {
        Answer::Yes => put_parts(out, &[Part::Text("yes\n")]),
        Answer::No { at, reason, number } => put_no(old, at, *reason, number, out),
    }
}
