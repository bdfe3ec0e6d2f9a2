ghost use Rattle.std.specs.Prelude.{◌≡◌, ◌≤◌, List, ℕ, length, IfOk, OnOk, OnErr, IsErrOf};
ghost use Rattle.acn_outside.specs.Counts.{AllStay, Rose, Stays};
ghost use Rattle.acn_outside.specs.Moves.{Gains};
ghost use Rattle.acn_num.specs.declared.limits.TheConstants.{MOST_FILE_BYTES};
ghost use Rattle.acn_outside.specs.Whole.{GainsFront, IsWhole, IsTooLong};

use crate::{Failed, Files, Sink};
use acn_num::{MOST_FILE_BYTES, NoMemory};
use std::alloc::{AllocError, Global};

// So many bytes are read at once.
const PIECE: usize = 16_384;

/// Why a file wasn't read whole.
#[derive(Clone, Copy)]
pub enum WholeFault {
    /// A read failed, and the count of the file's name rose.
    Failed,
    /// The file has more than `MOST_FILE_BYTES` bytes.
    TooLong,
    /// Memory was refused.
    NoMemory,
}

impl From<NoMemory> for WholeFault {
    ghost use Rattle.acn_outside.specs.declared.whole.WholeFault.TheVariants as fault;

    ghost from_gives = { λ _ e. e ≡ fault.NoMemory };

    fn from(_: NoMemory) -> Self {
        WholeFault::NoMemory
    }
}

impl From<AllocError> for WholeFault {
    ghost use Rattle.acn_outside.specs.declared.whole.WholeFault.TheVariants as fault;

    ghost from_gives = { λ _ e. e ≡ fault.NoMemory };

    fn from(_: AllocError) -> Self {
        WholeFault::NoMemory
    }
}

impl From<Failed> for WholeFault {
    ghost use Rattle.acn_outside.specs.declared.whole.WholeFault.TheVariants as fault;

    ghost from_gives = { λ _ e. e ≡ fault.Failed };

    fn from(_: Failed) -> Self {
        WholeFault::Failed
    }
}

/// All bytes of a file, of which there are `MOST_FILE_BYTES` at most.
///
/// `Failed` comes only where the count of this name rose in this call, and else no count changes.
/// `TooLong` comes exactly where one byte more than these came. The files stay as they are.
pub fn read_whole<F: Files>(alloc: Global, files: &mut F, name: &str) -> Result<Vec<u8>, WholeFault>
    ensures whole { IfOk result (λ v. IsWhole (F.contents files.old name.now) v.items) }
    ensures fits { IfOk result (λ v. length v.items ≤ MOST_FILE_BYTES) }
    ensures failed { IsErrOf result WholeFault.Failed → Rose (F.faults files.old name.now) (F.faults files.new name.now) }
    ensures too_long { IsErrOf result WholeFault.TooLong → IsTooLong (F.contents files.old name.now) }
    ensures same { (m : List ℕ) → F.contents files.new m ≡ F.contents files.old m }
    ensures count { (m : List ℕ) → F.faults files.old m ≤ F.faults files.new m }
    ensures uncounted { (IsErrOf result WholeFault.Failed → ⊥) → AllStay (F.faults files.old) (F.faults files.new) }
{
    let mut all = Vec::new(alloc);
    let mut piece = [0u8; PIECE];
    while all.len() <= MOST_FILE_BYTES {
        let n = files.read_at(name, all.len() as u64, &mut piece)?;
        if n == 0 {
            return Ok(all);
        }
        all.extend_from_slice(&piece[..n])?;
    }
    Err(WholeFault::TooLong)
}

/// Writes all the bytes. It takes no memory.
///
/// `Failed` comes only where the count of the output rose in this call, and then a front of the bytes was appended. Else the
/// count stays.
pub fn write_all<O: Sink>(out: &mut O, bytes: &[u8]) -> Result<(), Failed>
    ensures written { OnOk result (Gains (O.taken out.old) (O.taken out.new) bytes.now) }
    ensures front { OnErr result (GainsFront (O.taken out.old) (O.taken out.new) bytes.now) }
    ensures failed { OnErr result (Rose (O.faults out.old) (O.faults out.new)) }
    ensures count { O.faults out.old ≤ O.faults out.new }
    ensures uncounted { OnOk result (Stays (O.faults out.old) (O.faults out.new)) }
{
    let mut rest = bytes;
    while !rest.is_empty() {
        let n = out.write(rest)?;
        rest = &rest[n..];
    }
    Ok(())
}
