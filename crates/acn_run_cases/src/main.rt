//! Prints its input, with the answer behind each `=>`.
//!
//! A line `sources` begins a group. A line `file NAME TEXT` is a file of it, which goes on as `acn_case_sheets` says, and a line
//! `spaces NAME COUNT` a file of so many spaces. A case `WORDS : INPUT : SETTINGS ;; PARTS =>` asks what the top call does with these
//! words, the files of the group, in which the parts stand in the places of `$1`, `$2` and `$3`, and this input. The parts, the settings
//! and the input may be left out.
//!
//! The words of an input are hexadecimal digits, two a byte, or characters behind a `'`, where `\` and two hexadecimal digits are one
//! byte. `5000x` writes the word behind it 5,000 times.
//!
//! With `--hints` in front of its words a case prints what helps behind the line, as the program does.
//!
//! With `--progress` there too it prints how far it is, as the program does, by a clock that stands still, or that is `seconds N` later
//! each time that it is looked at; what is printed so stands behind the answer, with `\r` for a carriage return.
//!
//! With `acn` in front of its words a case prints what the program answers before it reads anything: the text of `--help` or of
//! `--version`, or `none`.
//!
//! The answer is `STATUS; OUTPUT; ERRORS`. An output is its lines with ` |` for each line feed, and that of `encode` its octets; what
//! stands several times one behind the other is written once, with `x5000` behind it.
//!
//! Settings: `piece N`, the most bytes that a read of the input gives; `room N`, the most that a write takes; `file K`, `input K`,
//! `output K` and `errors K`, the call, from 0, of that object that fails; `each`, the input comes in pieces of every size; `long`, the
//! output has more than 16,384 bytes; `group N`, the octets of `encode` are written in groups of so many. Without `piece`, `room`,
//! `seconds` and a call that fails a case runs a second time, where each read gives an octet and each write takes one; the answers have to be the same.
//!
//! A line `ask MODULE.TYPE` begins a group, and the lines behind it its files (`acn_case_sheets`). A line `CASE =>` asks about this
//! type of these files, with CASE in the place of `$1`, or, where `;;` divides it, its parts in the places of `$1`, `$2` and
//! `$3`. The answer is the first fault of a walk over the nodes that are to be made for the type, or `none` with what the walk noted.
//! Behind a line `tree MODULE.TYPE` it is the tree of the type, in the notation of `acn_case_trees` with ` | ` between its lines,
//! behind its name; or the place and the reason why it has none.
//!
//! A line `paths WORDS` begins a group without files: a word `FIELD` is the path of an inserted field, `USER<-FIELD` a use. A line
//! `PATH =>` asks for the slot of this path and those at home there, `count =>` how many slots there are. A line `scope WORDS` begins
//! one too: a word `NAME=SLOT` is a parameter that is bound. `enter FIELDS` and `visit FIELDS` enter a SEQUENCE, and leave it again: a
//! field is `NAME=SLOT`, `NAME` where it has no slot, or `NAME.FIELD` where it is a SEQUENCE; a `?` behind a name says that it may be
//! absent. A line `NAMES =>` asks to which slot these names lead.
#![tactic(auto)]

mod answer;
mod asked;
mod group;
mod input;
mod names;
mod outputs;
mod paths;
mod reasons;
mod screen;
mod setting;
mod sheet;
mod surveyed;
mod tree_words;
mod trees;
mod walked;

use acn_case_lines::run_cases;
use group::Group;
use sheet::Sheet;
use std::io;

fn main(rt: HostRuntime) -> io::Result<()> {
    let alloc = rt.alloc();
    run_cases(&rt, alloc, &mut Group::Runs(Sheet::new(alloc)))
}
