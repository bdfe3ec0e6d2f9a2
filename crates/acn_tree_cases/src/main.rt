//! Prints its input, with the answer behind each `=>`.
//!
//! A tree stands in lines, as `acn_case_trees` says. A case `QUESTION =>` asks of it; behind `;;` stand its parts. A line
//! `ask trees`, `ask packets` or `ask work` says what the cases behind it ask.
//!
//! Of trees: `form`, `values`, `bits`, `bits-at PATH`, `check`, `check-twice`, `plan`, `named`, `at PATH`, `meets VALUE`,
//! `shaped VALUE`, `make NUMBER`; `extremes`, of a shortest and a longest packet, or `extreme-bits` of how long they are.
//! `compare ;; PARTS / ;; PARTS` compares the tree with the parts in front of the stroke with that with those behind it.
//! `extremes-of LINE | LINE` asks `extremes` of a tree whose lines stand in the case itself. `draw START COUNTS` asks for the
//! numbers that are drawn from a start.
//!
//! Of packets: a case `OCTETS =>` asks what `plain_decode`, `unpack` and `skim` read at the front of the octets by this tree;
//! what they say stands once where they agree. The answer is the number of bits and the value, or the path, the reason and the
//! bit of a refusal. A case `write VALUE =>` asks what `plain_encode` and `pack` write for the value, which stands once where
//! they agree: the number of bits and their octets, the last one filled with zeros, or the path and the reason of a refusal.
//! `pack` writes into marked octets, of which all behind the packet have to stay. A case `drawn START COUNT =>` asks of so many
//! values that `make` draws from a start, one after the other, whether each is written alike by both and read again as itself,
//! with ones behind it, or refused alike.
//!
//! Of work: a case `START COUNT =>` asks what `work` answers for so many values of this tree that are made from a start. The
//! answer is the line of the summary, with `$` for its line feed.
#![tactic(auto)]

mod accepted;
mod answer;
mod compared;
mod drawn;
mod extreme;
mod fault;
mod packed;
mod packets;
mod plan;
mod trees;
mod worked;

use acn_case_lines::run_cases;
use answer::Group;
use std::io;

fn main(rt: HostRuntime) -> io::Result<()> {
    let alloc = rt.alloc();
    run_cases(&rt, alloc, &mut Group::new(alloc))
}
