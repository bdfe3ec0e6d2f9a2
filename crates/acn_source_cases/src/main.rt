//! Prints its input, with the answer behind each `=>`.
//!
//! A line `ask QUESTION` begins a group, and the lines behind it its files (`acn_case_sheets`). A line `CASE =>` asks the question
//! of these files, with CASE in the place of `$1`, or, where `;;` divides it, its parts in the places of `$1`, `$2` and `$3`.
#![tactic(auto)]

mod answer;
mod filing;
mod graph;
mod looking;
mod measure;
mod names;
mod outside;
mod reading;
mod sheet;
mod siting;

use acn_case_lines::run_cases;
use sheet::Sheet;
use std::io;

fn main(rt: HostRuntime) -> io::Result<()> {
    let alloc = rt.alloc();
    run_cases(&rt, alloc, &mut Sheet::new(alloc))
}
