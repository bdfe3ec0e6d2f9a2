//! Prints its input, with the answer behind each `=>`.
//!
//! A line `leaf KIND SET CODING ..` or `text SET RULE .. alphabet SET WIDTH ..` says which leaf the next cases are about, a line
//! `octets OCTETS` in which octets they read and write bits. A set is written as `0..2,5`, octets as two hexadecimal digits each or as
//! characters behind a `'`, a pattern by its bits.
//!
//! Of a leaf of numbers: `read OCTETS =>` what stands at the front of octets, `list NUMBER =>` the bits of a number, `width =>` the
//! one width of its codes, and `fill A B =>` the octets where A fills a hole in front of B. Of a text: `read OCTETS =>`,
//! `read-sized SIZE OCTETS =>`, `list TEXT =>` and `put TEXT =>`. Of octets: `take SKIP WIDTH =>`, `window SKIP BITS WIDTH =>`,
//! `put SKIP WIDTH NUMBER =>`, `fill SKIP WIDTH NUMBER =>`. Of nothing: `bits-for`, `octets-for`, `signed-octets-for` and
//! `digits-for NUMBER =>`, `count`, `ends`, `nth`, `holds` and `least-except SET NUMBERS =>`, `copy SET =>` and `union`, `meet` and
//! `except SET SET =>` the ranges that are made, `with-evens SET COUNT QUESTION ..=>` the question about the set that is joined with as
//! many even numbers; `row NUMBERS =>`, `name TEXT =>`, `bits-twice BITS =>` and `path STEPS =>` what is kept of them; and
//! `asks SET ASKS =>` and `asks-fixed NUMBER ASKS =>` what a slot is answered that has a hole and may have these numbers, or has this
//! one; an ask is `=N` or `!=N`. `heard SET WORDS =>` asks of fields by their paths: a word is `PATH=N`, `PATH!=N`, or `PATH?` for the
//! least number. `asks` also asks so of one field, and says what is heard where it differs.
#![tactic(auto)]

mod asks;
mod bits;
mod bitwise;
mod fault;
mod heard;
mod lists;
mod numbers;
mod said;
mod sets;
mod subject;
mod texts;
mod widths;

use acn_case_lines::run_cases;
use std::io;
use subject::Subject;

fn main(rt: HostRuntime) -> io::Result<()> {
    let alloc = rt.alloc();
    run_cases(&rt, alloc, &mut Subject::Nothing)
}
