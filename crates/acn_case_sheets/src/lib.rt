//! The files of a group of cases: their lines, their texts with the parts of a case in them, and the trees and the world of these.
//!
//! A line `asn TEXT`, `acn TEXT` or `map TEXT` begins a file, which goes on in the lines that are indented, and in a line
//! `times LOW HIGH TEXT` once for each number from LOW up to HIGH, with the number in the place of `$i`, the one before it in that of
//! `$h` and twice the number in that of `$e`. `$1`, `$2` and `$3` stand for the parts of a case, which `;;` divides. `\` and two
//! hexadecimal digits are one byte.
#![tactic(auto)]

mod files;
mod texts;
mod trouble;
mod turns;

pub use files::{CaseFile, CaseFiles, parts_of};
pub use texts::{add, bytes_of, no_files, sources, tokens_of, world_of};
pub use trouble::{Trouble, trouble_in_words};
