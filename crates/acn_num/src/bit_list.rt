ghost use Rattle.std.specs.Prelude.{◌≡◌, [], ◌∷◌, ◌++◌, length, slice_get, OnOk, OnErr};
ghost use Rattle.acn_num.specs.Bits.{bit, low_bits};

use crate::NoMemory;
use std::alloc::Global;
use std::marker::Model;

/// Bits, which contracts see as a list of truth values.
#[derive(Drop)]
pub struct BitList {
    bits: Vec<bool>,
}

impl Model for BitList {
    ghost use Rattle.std.specs.Prelude.{List, Bool};

    ghost Value = { List Bool };

    ghost view = { λ list. list.bits.items };
}

impl BitList {
    /// A list without bits. It takes no memory.
    pub fn new(alloc: Global) -> BitList
        ensures { result ≡ [] }
    {
        BitList {
            bits: Vec::new(alloc),
        }
    }

    /// Adds a bit at the end. A refused push changes nothing.
    pub fn push(&mut self, bit: bool) -> Result<(), NoMemory>
        ensures ok { OnOk result (self.new ≡ self.old ++ bit ∷ []) }
        ensures err { OnErr result (self.new ≡ self.old) }
    {
        self.bits.push(bit)?;
        Ok(())
    }

    /// Adds the lowest bits of a number, the most significant first. What was added stays where memory runs out.
    pub fn push_number(&mut self, width: u32, v: u64) -> Result<(), NoMemory>
        ensures { OnOk result (self.new ≡ self.old ++ low_bits width v) }
    {
        for i in 0..width {
            self.push(bit_of(v, width - 1 - i))?;
        }
        Ok(())
    }

    /// Adds the bits of another list at the end. A refused growth changes nothing.
    pub fn append(&mut self, other: &BitList) -> Result<(), NoMemory>
        ensures ok { OnOk result (self.new ≡ self.old ++ other.now) }
        ensures err { OnErr result (self.new ≡ self.old) }
    {
        self.bits.extend_from_slice(&other.bits)?;
        Ok(())
    }

    /// How many bits there are.
    pub fn len(&self) -> usize
        ensures { result ≡ length self.now }
    {
        self.bits.len()
    }

    /// The bit at a place, numbered from 0. None comes exactly where there is none.
    pub fn get(&self, at: usize) -> Option<bool>
        ensures { result ≡ slice_get self.now at }
    {
        self.bits.get(at).copied()
    }
}

// A bit of a number, bit 0 being worth 1.
fn bit_of(v: u64, k: u32) -> bool
    ensures { result ≡ bit k v }
{
    if k < 64 { (v >> k) % 2 == 1 } else { false }
}
