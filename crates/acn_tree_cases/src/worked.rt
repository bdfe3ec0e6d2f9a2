//! What comes of values that are made, in words.

use acn_case_lines::wide;
use acn_check::Checked;
use acn_num::NoMemory;
use acn_outside::MemSink;
use acn_plan::compile;
use acn_tree::items_named;
use acn_work::{Summary, Unwatched, put_summary, work};
use std::alloc::Global;

/// The most values of a case.
const MOST_OF_A_CASE: u64 = 1_000_000;

/// How many bytes a line has at most.
const ROOM: usize = 256;

// The line of a summary, with a `$` for its line feed.
fn shown(alloc: Global, summary: &Summary) -> Result<String, NoMemory> {
    let room = vec![in alloc; 0u8; ROOM]?;
    let mut out = MemSink::new(room, 7, Vec::new(alloc));
    if put_summary(summary, &mut out).is_err() {
        return Ok("not printed".to_string(alloc)?);
    }
    let text = String::from_utf8_lossy(alloc, out.bytes().unwrap_or(b"too much"))?;
    Ok(text.as_str().replace(alloc, "\n", "$")?)
}

/// The line of a summary of so many values that are made from a start, of a tree that is accepted.
pub fn work_told(alloc: Global, checked: &Checked, words: &[&str]) -> Result<String, NoMemory> {
    if !items_named(checked.tree()) {
        return Ok("not named".to_string(alloc)?);
    }
    let count = wide(words, 1);
    if count > MOST_OF_A_CASE {
        return Ok("too many".to_string(alloc)?);
    }
    let plan = compile(alloc, checked)?;
    let summary = work(alloc, checked, &plan, wide(words, 0), count, &Unwatched)?;
    shown(alloc, &summary)
}
