//! Whole files.

ghost use Rattle.std.specs.Prelude.{◌≡◌, ◌≤◌, ◌++◌, ◌∷◌, [], ℕ, List, length, map, string_bytes, slice_get, Some, IfOk, IfErr, OnOk};
ghost use Rattle.acn_outside.specs.Counts.{AllStay, Rose};
ghost use Rattle.acn_num.specs.declared.limits.TheConstants.{MOST_FILE_BYTES};
ghost use Rattle.acn_outside.specs.Whole.{IsWhole, IsTooLong};
ghost use Rattle.acn_outside.specs.declared.whole.WholeFault.TheVariants as fault;
ghost use Rattle.acn_files.specs.Contents.{AreWhole, IsFirstTooLong};

use acn_outside::{Files, WholeFault, read_whole};
use std::alloc::Global;

/// The first file that wasn't read whole, by its number from 0, and why.
#[derive(Clone, Copy)]
pub struct FilesFault {
    /// The number of the file.
    pub file: usize,
    /// Why it wasn't read.
    pub fault: WholeFault,
}

// Adds the contents of one more file.
fn keep(all: &mut Vec<Vec<u8>>, bytes: Vec<u8>, number: usize) -> Result<(), FilesFault>
    ensures kept { OnOk result (map (λ v. v.items) all.new.items ≡ map (λ v. v.items) all.old.items ++ bytes.items ∷ []) }
    ensures fault { IfErr result (λ e. e.fault ≡ fault.NoMemory) }
{
    match all.push(bytes) {
        Ok(()) => Ok(()),
        Err(_) => Err(FilesFault {
            file: number,
            fault: WholeFault::NoMemory,
        }),
    }
}

// The whole contents of the file of this name and number.
fn read_one<F: Files>(
    alloc: Global,
    files: &mut F,
    name: &str,
    number: usize,
) -> Result<Vec<u8>, FilesFault>
    ensures whole { IfOk result (λ v. IsWhole (F.contents files.old name.now) v.items × (length v.items ≤ MOST_FILE_BYTES)) }
    ensures number { IfErr result (λ e. e.file ≡ number) }
    ensures too_long { IfErr result (λ e. e.fault ≡ fault.TooLong → IsTooLong (F.contents files.old name.now)) }
    ensures failed { IfErr result (λ e. e.fault ≡ fault.Failed → Rose (F.faults files.old name.now) (F.faults files.new name.now)) }
    ensures same { (m : List ℕ) → F.contents files.new m ≡ F.contents files.old m }
    ensures count { (m : List ℕ) → F.faults files.old m ≤ F.faults files.new m }
    ensures uncounted { OnOk result (AllStay (F.faults files.old) (F.faults files.new)) }
    ensures told { IfErr result (λ e. (e.fault ≡ fault.Failed → ⊥) → AllStay (F.faults files.old) (F.faults files.new)) }
{
    match read_whole(alloc, files, name) {
        Ok(bytes) => Ok(bytes),
        Err(fault) => Err(FilesFault {
            file: number,
            fault,
        }),
    }
}

/// The whole contents of the files of these names, in order, each of `MOST_FILE_BYTES` bytes at most. The files stay as they are.
///
/// # Errors
///
/// `TooLong` comes exactly where a file has more bytes, and the first such is told. `Failed` comes only where the count of this
/// file's name rose in this call, and else no count changes. `NoMemory` comes where memory is wanting.
pub fn read_files<F: Files>(
    alloc: Global,
    files: &mut F,
    names: &[String],
) -> Result<Vec<Vec<u8>>, FilesFault>
    ensures whole { IfOk result (λ all. AreWhole (F.contents files.old) (map string_bytes names.now) (map (λ v. v.items) all.items)) }
    ensures too_long { IfErr result (λ e. e.fault ≡ fault.TooLong → IsFirstTooLong (F.contents files.old) (map string_bytes names.now) e.file) }
    ensures failed { IfErr result (λ e. e.fault ≡ fault.Failed → (name : List ℕ) × (slice_get (map string_bytes names.now) e.file ≡ Some name) × Rose (F.faults files.old name) (F.faults files.new name)) }
    ensures same { (m : List ℕ) → F.contents files.new m ≡ F.contents files.old m }
    ensures count { (m : List ℕ) → F.faults files.old m ≤ F.faults files.new m }
    ensures uncounted { OnOk result (AllStay (F.faults files.old) (F.faults files.new)) }
    ensures told { IfErr result (λ e. (e.fault ≡ fault.Failed → ⊥) → AllStay (F.faults files.old) (F.faults files.new)) }
{
    let mut all = Vec::new(alloc);
    for (number, name) in names.iter().enumerate() {
        match read_one(alloc, files, name.as_str(), number) {
            Ok(bytes) => keep(&mut all, bytes, number)?,
            Err(fault) => return Err(fault),
        }
    }
    Ok(all)
}
