ghost use Rattle.std.specs.Prelude.{◌≡◌, ◌<◌, ◌≤◌, length};
ghost use Rattle.acn_num.specs.Bits.{number};
ghost use Rattle.acn_grammar.specs.declared.limits.TheConstants.{MOST_PATTERN_BITS};

use crate::limits::MOST_PATTERN_BITS;
use arrayvec::ArrayVec;
use std::marker::Model;

/// A pattern of bits, as ACN gives it for values, terminators and NULLs. Contracts see it as a list of 1 to
/// `MOST_PATTERN_BITS` bits. (The limit is this profile's own.)
#[derive(Drop)]
pub struct Pattern {
    bits: ArrayVec<bool, MOST_PATTERN_BITS>,
    // what the bits spell, for whoever writes or compares them at once
    number: u64,
}

impl Model for Pattern {
    ghost use Rattle.std.specs.Prelude.{List, Bool, ◌<◌, ◌≤◌, length};
    ghost use Rattle.acn_grammar.specs.Pattern.{IsNumbered};

    ghost Value = { List Bool };

    ghost view = { λ pattern. pattern.bits.items };

    ghost invariant = { λ pattern. IsNumbered pattern.bits.items pattern.number };
}

impl Pattern {
    /// The pattern of these bits.
    pub fn new(bits: &[bool]) -> Pattern
        requires some { 0 < length bits.now }
        requires short { length bits.now ≤ MOST_PATTERN_BITS }
        ensures { result ≡ bits.now }
    {
        let mut copied = ArrayVec::new();
        let mut number = 0u64;
        for bit in bits {
            copied.push(*bit);
            number = 2 * number + u64::from(*bit);
        }
        Pattern {
            bits: copied,
            number,
        }
    }

    /// The bits, in order: at least one, and at most `MOST_PATTERN_BITS`.
    pub fn bits(&self) -> &[bool]
        ensures same { result.now ≡ self.now }
        ensures some { 0 < length result.now }
        ensures short { length result.now ≤ MOST_PATTERN_BITS }
    {
        self.bits.as_slice()
    }

    /// The number that the bits spell in base 2.
    #[inline(always)]
    pub fn number(&self) -> u64
        ensures { result ≡ number self.now }
    {
        self.number
    }

    /// The same pattern again.
    pub fn copy(&self) -> Pattern
        ensures { result ≡ self.now }
    {
        Pattern::new(self.bits())
    }
}
