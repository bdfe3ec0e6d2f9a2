//! What came of the values that were made.

ghost use Rattle.acn_work.specs.Summaries.{OneSummary};

use acn_packet_laws::{one_writing, refused_is_not_spelled};

/// What came of the values that were made.
#[derive(Clone, Copy)]
pub struct Summary {
    /// How many were made.
    pub made: u64,
    /// How many of them were written, and read again.
    pub packed: u64,
    /// How many of them are refused.
    pub refused: u64,
    /// How many bits were written for all of them, without fill bits.
    pub bits: u64,
}

/// For an accepted tree, a start and a count there is at most one summary.
pub fn one_summary()
    ensures { OneSummary }
{
    one_writing();
    refused_is_not_spelled();
}
