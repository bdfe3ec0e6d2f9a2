//! Padding.

ghost use Rattle.std.specs.Prelude.{◌<◌, OnOk};
ghost use Rattle.acn_reads.specs.Steps.{PadPassed};

use acn_bits::{ReadCursor, Short};

/// Passes the padding. Most nodes have none, and for these the cursor isn't touched.
#[inline(always)]
pub fn pad(cur: &mut ReadCursor<'_>, align: u32) -> Result<(), Short>
    requires { 0 < align }
    ensures passed { OnOk result (PadPassed align cur.old cur.new) }
{
    if align == 1 {
        Ok(())
    } else {
        acn_reads::pad(cur, align)
    }
}
