//! Prints its input, with the answer behind each `=>`.
//!
//! A tree stands in lines, as `acn_case_trees` says; its name is `T`. A case `QUESTION =>` asks of it; behind `;;` stand the
//! parts of the tree. A line `ask streams`, `ask json` or `ask reports` says what the cases behind it ask.
//!
//! Of streams: `QUESTION : BYTES`, where bytes are two hexadecimal digits each, or characters behind a `'`. `decode`, what is
//! written for a recording; `encode`, what is written for lines; `route A B`, what is written for space packets, where the
//! application process identifiers A and B have the tree, and `route all`, where each identifier has it; `explain`, the lines of
//! the pieces of a recording's packets; `pieces`, those of the packet at the front of the bytes. Behind the question may stand
//! `limit N`, the most bytes that are read; `piece N`, the most that a read gives, without which every number is tried, and the
//! answers have to be the same; `input K` and `output K`, the read or write, from 0, that fails; `room N`, the most that a write
//! takes. A line feed that is written is printed as ` |`.
//!
//! Of lines of JSON, in which `%` and two hexadecimal digits are one byte, and blanks at the ends are left out: `read LINE`, the
//! value that the line gives, or the first fault; `again LINE`, the line of that value; `cut LINE`, the lengths of the fronts of
//! the line that are JSON; `nested COUNT OPEN CLOSE INSIDE`, what a line reads as that has so many times OPEN, then INSIDE, then
//! as many times CLOSE; `line VALUE`, the line of a value. Where a line is printed, `two lines` says that `to_line` and `put` of
//! `Lines` differ; where one is read, `two values`, that `from_line` and `take` of `Lines` do.
//!
//! Of reports, in which each line feed is shown as `$` and a path is its steps joined by full stops, or `root`: `layout`, the
//! layout of the tree, if `check` accepts it; `check`, the line of its first fault; `bounds`, the line of its bounds;
//! `fault NAME ..`, the line of this fault of the checker; `packet NUMBER PATH BIT REASON ..`, that of a packet, and `place PATH
//! BIT REASON ..`, the same without its number; `unfit NUMBER PATH REASON ..`, that of a refused value; `json NUMBER LINE`, that
//! of a line of JSON; `json-no-memory`; `empty`; `long-line NUMBER`; `long-input`; `path PATH`; `broken COUNT PATH`, what was
//! printed of a path before the write of this number, from 0, failed.
#![tactic(auto)]

mod answer;
mod built;
mod bytes;
mod check_words;
mod json;
mod outcome;
mod pieces;
mod printed;
mod reports;
mod routed;
mod setting;
mod streams;
mod words;

use acn_case_lines::run_cases;
use answer::Group;
use std::io;

fn main(rt: HostRuntime) -> io::Result<()> {
    let alloc = rt.alloc();
    run_cases(&rt, alloc, &mut Group::new(alloc))
}
