ghost use Rattle.std.specs.Prelude.{◌≡◌, ◌<◌, ◌≤◌, List, ℕ, Option, length, take, IfOk, OnOk, OnErr};
ghost use Rattle.acn_num.specs.declared.limits.TheConstants.{MOST_FILE_BYTES};
ghost use Rattle.acn_outside.specs.Counts.{AllStay, Rose, Stays};
ghost use Rattle.acn_outside.specs.Moves.{Takes, Gains, IsUsedUp, AreAt, EndsBy};

/// A file, an input or an output failed, and its count of faults rose.
#[derive(Clone, Copy)]
pub struct Failed;

/// Files by name. Names are compared byte by byte.
pub trait Files {
    /// The bytes of the file with this name, where they are told.
    ghost contents: { Self → List ℕ → Option (List ℕ) };

    /// How often a read of the file with this name has failed.
    ghost faults: { Self → List ℕ → ℕ };

    /// Puts bytes of the file from the place `at` on at the front of the piece, and answers how many.
    /// 0 for a piece that isn't empty says that the file ends at or before `at`.
    /// `Failed` comes only where the count of this name rose, and else no count changes. No read changes a file.
    fn read_at(&mut self, name: &str, at: u64, into: &mut [u8]) -> Result<usize, Failed>
        requires { at ≤ MOST_FILE_BYTES }
        ensures within { IfOk result (λ n. n ≤ length into.old) }
        ensures bytes { IfOk result (λ n. AreAt (contents self.old name.now) at (take n into.new)) }
        ensures end { IfOk result (λ n. n ≡ 0 → 0 < length into.old → EndsBy (contents self.old name.now) at) }
        ensures same { (m : List ℕ) → contents self.new m ≡ contents self.old m }
        ensures count { (m : List ℕ) → faults self.old m ≤ faults self.new m }
        ensures failed { OnErr result (Rose (faults self.old name.now) (faults self.new name.now)) }
        ensures uncounted { OnOk result (AllStay (faults self.old) (faults self.new)) };
}

/// An input, which is read from its front to its end.
pub trait Source {
    /// The bytes that are left, where they are told.
    ghost rest: { Self → Option (List ℕ) };

    /// How often a read has failed.
    ghost faults: { Self → ℕ };

    /// Moves the next bytes to the front of the piece, and answers how many.
    /// 0 for a piece that isn't empty says that nothing is left.
    /// `Failed` comes only where the count rose, and then nothing was moved. Else the count stays.
    fn read(&mut self, into: &mut [u8]) -> Result<usize, Failed>
        ensures within { IfOk result (λ n. n ≤ length into.old) }
        ensures moved { IfOk result (λ n. Takes (rest self.old) (rest self.new) (take n into.new)) }
        ensures end { IfOk result (λ n. n ≡ 0 → 0 < length into.old → IsUsedUp (rest self.new)) }
        ensures count { faults self.old ≤ faults self.new }
        ensures failed { OnErr result (Rose (faults self.old) (faults self.new)) }
        ensures uncounted { OnOk result (Stays (faults self.old) (faults self.new)) }
        ensures kept { OnErr result (rest self.new ≡ rest self.old) };
}

/// An output, which is written from its front on.
pub trait Sink {
    /// The bytes taken so far, where they are told.
    ghost taken: { Self → Option (List ℕ) };

    /// How often a write has failed.
    ghost faults: { Self → ℕ };

    /// Appends the first bytes of the piece, and answers how many: at least 1 of a piece that isn't empty.
    /// `Failed` comes only where the count rose, and then nothing was appended. Else the count stays.
    fn write(&mut self, from: &[u8]) -> Result<usize, Failed>
        ensures within { IfOk result (λ n. n ≤ length from.now) }
        ensures some { IfOk result (λ n. 0 < length from.now → 0 < n) }
        ensures moved { IfOk result (λ n. Gains (taken self.old) (taken self.new) (take n from.now)) }
        ensures count { faults self.old ≤ faults self.new }
        ensures failed { OnErr result (Rose (faults self.old) (faults self.new)) }
        ensures uncounted { OnOk result (Stays (faults self.old) (faults self.new)) }
        ensures kept { OnErr result (taken self.new ≡ taken self.old) };
}
