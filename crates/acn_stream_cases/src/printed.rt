//! Outputs in memory, and what was printed to them.

use acn_num::NoMemory;
use acn_outside::{Failed, MemSink};
use std::alloc::Global;

/// How many bytes an output takes.
const ROOM: usize = 16_384;

/// An output that takes so many bytes a call, and whose calls with these numbers fail.
pub fn output(alloc: Global, fail: Vec<u64>) -> Result<MemSink, NoMemory> {
    let room = vec![in alloc; 0u8; ROOM]?;
    Ok(MemSink::new(room, 7, fail))
}

/// The bytes that an output took, with a `$` for each line feed, and ` failed` behind them where printing failed.
pub fn shown(
    alloc: Global,
    output: &MemSink,
    printed: Result<(), Failed>,
) -> Result<String, NoMemory> {
    let text = String::from_utf8_lossy(alloc, output.bytes().unwrap_or(b"too much"))?;
    let text = text.as_str().replace(alloc, "\n", "$")?;
    if printed.is_err() {
        return Ok(format!(in alloc; "{text} failed")?);
    }
    Ok(text)
}
