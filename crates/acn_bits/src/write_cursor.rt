ghost use Rattle.std.specs.Prelude.{◌≡◌, ◌+◌, ◌-◌, ◌*◌, ◌<◌, ◌≤◌, ◌^◌, ◌++◌, ◌∷◌, [], false, length, remove, replicate, slice_get, Some, None};
ghost use Rattle.acn_bits.specs.Overwrite.{Gap};
ghost use Rattle.acn_num.specs.Bits.{low_bits};
ghost use Rattle.acn_bits.specs.declared.word.TheConstants.{WORD_BITS};

use crate::part::put_bits;
use arrayvec::ArrayVec;
use std::marker::Model;

/// Bits that are zeros until they are filled. It can't be dropped or copied: only `fill` spends it.
pub struct Hole {
    place: u64,
    width: u32,
}

impl Model for Hole {
    ghost use Rattle.std.specs.Prelude.{◌≤◌};
    ghost use Rattle.acn_bits.specs.Overwrite.{Gap};
    ghost use Rattle.acn_bits.specs.declared.word.TheConstants.{WORD_BITS};

    ghost Value = { Gap };

    ghost view = { λ h. record { place = h.place; width = h.width } };

    ghost invariant = { λ h. h.width ≤ WORD_BITS };
}

impl Hole {
    /// The number of its first bit in the buffer.
    pub fn place(&self) -> u64
        ensures { result ≡ self.now.place }
    {
        self.place
    }

    /// How many bits there are, at most `WORD_BITS`.
    pub fn width(&self) -> u32
        ensures width { result ≡ self.now.width }
        ensures small { result ≤ WORD_BITS }
    {
        self.width
    }
}

/// A writer of bits in place, from the first bit of a buffer on, the most significant bit of each octet first.
///
/// Each call changes exactly the bits that it names, and takes no memory.
#[derive(Drop)]
pub struct WriteCursor<'a, const N: usize> {
    buf: &'a mut [u8; N],
    at: u64,
    ghost small: { N ≤ 2 ^ 32 },
    ghost within: { at ≤ 8 * N },
}

impl<'a, const N: usize> WriteCursor<'a, N> {
    ghost use Rattle.acn_bits.specs.Writing.{place_of, Writes};

    /// A writer at bit 0 of the buffer, which stays as it is.
    pub fn new(buf: &'a mut [u8; N]) -> WriteCursor<'a, N>
        requires { N ≤ 2 ^ 32 }
        ensures same_buffer { result.buf.ghost_name ≡ buf.entry.ghost_name }
        ensures kept { result.buf.now ≡ buf.old }
        ensures front { place_of result ≡ 0 }
    {
        WriteCursor { buf, at: 0 }
    }

    /// How many bits were written or left as holes: the number of the next one.
    pub fn at(&self) -> u64
        ensures { result ≡ place_of self.now }
    {
        self.at
    }

    /// How many bits are left.
    pub fn room(&self) -> u64
        ensures { result ≡ 8 * N - place_of self.now }
    {
        8 * N as u64 - self.at
    }

    /// Writes `v` in the next `n` bits, at most `WORD_BITS`, and changes no others.
    pub fn put(&mut self, n: u32, v: u64)
        requires width { n ≤ WORD_BITS }
        requires fits { v < 2 ^ n }
        requires room { place_of self.old + n ≤ 8 * N }
        ensures { Writes self.old self.new (place_of self.old) (low_bits n v) (place_of self.old + n) }
    {
        let place = self.at;
        let buf = &mut *self.buf;
        put_bits(buf, place, n, v);
        self.at += u64::from(n);
    }

    /// Leaves the next `n` bits, at most `WORD_BITS`, as zeros that are to be filled.
    pub fn hole(&mut self, n: u32) -> Hole
        requires width { n ≤ WORD_BITS }
        requires room { place_of self.old + n ≤ 8 * N }
        ensures hole { result ≡ record { place = place_of self.old; width = n } }
        ensures zeros { Writes self.old self.new (place_of self.old) (replicate n false) (place_of self.old + n) }
    {
        let place = self.at;
        let buf = &mut *self.buf;
        put_bits(buf, place, n, 0);
        self.at += u64::from(n);
        Hole { place, width: n }
    }

    /// Writes `v` in the bits of a hole, and changes no others. The next bit to be written stays the same.
    pub fn fill(&mut self, hole: Hole, v: u64)
        requires passed { hole.place + hole.width ≤ place_of self.old }
        requires fits { v < 2 ^ hole.width }
        ensures { Writes self.old self.new hole.place (low_bits hole.width v) (place_of self.old) }
    {
        let Hole { place, width } = hole;
        let buf = &mut *self.buf;
        put_bits(buf, place, width, v);
    }
}

// A hole that is kept, or a place without one.
#[derive(Clone, Copy, Default)]
struct Kept {
    hole: bool,
    place: u64,
    width: u32,
}

/// Holes that are kept in an order until they are filled, with places of no hole between.
///
/// It can't be dropped or copied, and `close` ends it only where nothing is kept: so each hole that is
/// kept is given back, and `fill` is still all that spends one. It holds at most `S`, and takes no memory.
pub struct Holes<const S: usize> {
    kept: ArrayVec<Kept, S>,
}

impl<const S: usize> Model for Holes<S> {
    ghost use Rattle.std.specs.Prelude.{List, Option, map};
    ghost use Rattle.acn_bits.specs.Overwrite.{Gap};
    ghost use Rattle.acn_bits.specs.Kept.{kept_gap, AreNarrow};

    ghost Value = { List (Option Gap) };

    ghost view = { λ h. map kept_gap h.kept.items };

    ghost invariant = { λ h. AreNarrow h.kept.items };
}

impl<const S: usize> Holes<S> {
    /// Nothing is kept.
    pub fn new() -> Holes<S>
        ensures { result ≡ [] }
    {
        Holes {
            kept: ArrayVec::new(),
        }
    }

    /// Keeps a hole behind the others.
    pub fn keep(&mut self, hole: Hole)
        requires { length self.old < S }
        ensures { self.new ≡ self.old ++ Some hole ∷ [] }
    {
        let Hole { place, width } = hole;
        self.kept.push(Kept {
            hole: true,
            place,
            width,
        });
    }

    /// Keeps a place without a hole behind the others.
    pub fn skip(&mut self)
        requires { length self.old < S }
        ensures { self.new ≡ self.old ++ None ∷ [] }
    {
        self.kept.push(Kept {
            hole: false,
            place: 0,
            width: 0,
        });
    }

    /// The number of the first bit of the hole at a place of the order, which stays kept, and how many bits it has.
    pub fn shown(&self, at: usize) -> (u64, u32)
        requires { (gap : Gap) × (slice_get self.now at ≡ Some (Some gap)) }
        ensures { slice_get self.now at ≡ Some (Some (record { place = result.0; width = result.1 })) }
    {
        let kept = self.kept[at];
        (kept.place, kept.width)
    }

    /// Gives back the hole at a place of the order, and keeps it no more. Those behind it move up.
    pub fn release(&mut self, at: usize) -> Hole
        requires { (gap : Gap) × (slice_get self.old at ≡ Some (Some gap)) }
        ensures hole { slice_get self.old at ≡ Some (Some result) }
        ensures rest { self.new ≡ remove self.old at }
    {
        let kept = self.kept.remove(at);
        Hole {
            place: kept.place,
            width: kept.width,
        }
    }

    /// Takes away a place without a hole. Those behind it move up.
    pub fn unskip(&mut self, at: usize)
        requires { slice_get self.old at ≡ Some None }
        ensures { self.new ≡ remove self.old at }
    {
        let _none = self.kept.remove(at);
    }

    /// Ends it, where nothing is kept.
    pub fn close(self)
        requires { self ≡ [] }
    {
        let Holes { kept: _ } = self;
    }
}
