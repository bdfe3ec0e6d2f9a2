use acn_num::Path;
use acn_writer::Halt;

/// Where the walk stands, and why it halted, if it did.
#[derive(Drop)]
pub struct Trace {
    pub path: Path,
    pub why: Halt,
}
