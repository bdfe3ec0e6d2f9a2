//! The bytes in hand, which move through a room of a fixed size.

ghost use Rattle.std.specs.Prelude.{◌≡◌, ◌+◌, ◌-◌, ◌<◌, ◌≤◌, ◌++◌, ℕ, List, [], length, take, drop, IfOk, OnOk, OnErr};
ghost use Rattle.acn_outside.specs.Counts.{Rose, Stays};
ghost use Rattle.acn_outside.specs.Moves.{Takes, IsUsedUp};
ghost use Rattle.acn_supply.specs.declared.window.TheConstants.{MOST_IN_HAND};

use acn_num::NoMemory;
use acn_outside::{Failed, Source};
use std::alloc::Global;
use std::marker::Model;

/// The greatest number of bytes in hand. It is that of the octets of the greatest packet and of the greatest window round contents
/// together, 65,542 and 65,536: a packet that wants bits has fewer. (This profile's own.)
pub const MOST_IN_HAND: usize = 131_078;

/// The bytes in hand, in a room of `MOST_IN_HAND` bytes, which contracts see as the list of these bytes.
#[derive(Drop)]
pub struct Window {
    room: Vec<u8>,
    start: usize,
    end: usize,
}

impl Model for Window {
    ghost use Rattle.std.specs.Prelude.{List, ℕ, ◌≡◌, ◌≤◌, take, drop, vec_len};
    ghost use Rattle.acn_supply.specs.declared.window.TheConstants.{MOST_IN_HAND};

    ghost Value = { List ℕ };

    ghost view = { λ w. drop w.start (take w.end w.room.items) };

    ghost invariant = { λ w. (w.start ≤ w.end) × (w.end ≤ MOST_IN_HAND) × (vec_len w.room ≡ MOST_IN_HAND) };
}

// Copies the bytes from `start` to `end` to the front.
fn shift(room: &mut [u8], start: usize, end: usize)
    requires ordered { start ≤ end }
    requires within { end ≤ length room.old }
    ensures moved { take (end - start) room.new ≡ drop start (take end room.old) }
    ensures long { length room.new ≡ length room.old }
{
    room.copy_within(start..end, 0);
}

// Reads once, to the places from `from` to `to`.
fn read_into<S: Source>(
    input: &mut S,
    room: &mut [u8],
    from: usize,
    to: usize,
) -> Result<usize, Failed>
    requires some { from < to }
    requires within { to ≤ length room.old }
    ensures long { length room.new ≡ length room.old }
    ensures kept { take from room.new ≡ take from room.old }
    ensures most { IfOk result (λ n. from + n ≤ to) }
    ensures moved { IfOk result (λ n. Takes (S.rest input.old) (S.rest input.new) (take n (drop from room.new))) }
    ensures end { IfOk result (λ n. n ≡ 0 → IsUsedUp (S.rest input.new)) }
    ensures count { S.faults input.old ≤ S.faults input.new }
    ensures failed { OnErr result (Rose (S.faults input.old) (S.faults input.new)) }
    ensures uncounted { OnOk result (Stays (S.faults input.old) (S.faults input.new)) }
    ensures same { OnErr result (S.rest input.new ≡ S.rest input.old) }
{
    input.read(&mut room[from..to])
}

impl Window {
    /// No bytes. The memory is taken here, and nowhere else.
    pub fn new(alloc: Global) -> Result<Window, NoMemory>
        ensures { IfOk result (λ w. w ≡ []) }
    {
        Ok(Window {
            room: vec![in alloc; 0u8; MOST_IN_HAND]?,
            start: 0,
            end: 0,
        })
    }

    /// The bytes.
    pub fn bytes(&self) -> &[u8]
        ensures same { result.now ≡ self.now }
        ensures few { length result.now ≤ MOST_IN_HAND }
    {
        &self.room[self.start..self.end]
    }

    /// Lets the first bytes go.
    pub fn skip(&mut self, count: usize)
        requires { count ≤ length self.old }
        ensures { self.new ≡ drop count self.old }
    {
        self.start += count;
    }

    /// Reads once, at most so many bytes, and answers how many came. 0 says that the input is used up.
    /// `Failed` comes only where the input's count of faults rose; then nothing was read. Else the count stays.
    pub fn refill<S: Source>(&mut self, input: &mut S, most: usize) -> Result<usize, Failed>
        requires some { 0 < most }
        requires room { length self.old < MOST_IN_HAND }
        ensures most { IfOk result (λ n. n ≤ most) }
        ensures added { IfOk result (λ n. (given : List ℕ) × (length given ≡ n) × (self.new ≡ self.old ++ given) × Takes (S.rest input.old) (S.rest input.new) given) }
        ensures end { IfOk result (λ n. n ≡ 0 → IsUsedUp (S.rest input.new)) }
        ensures count { S.faults input.old ≤ S.faults input.new }
        ensures failed { OnErr result (Rose (S.faults input.old) (S.faults input.new)) }
        ensures uncounted { OnOk result (Stays (S.faults input.old) (S.faults input.new)) }
        ensures same { OnErr result (S.rest input.new ≡ S.rest input.old) }
        ensures kept { OnErr result (self.new ≡ self.old) }
    {
        let (start, end) = (self.start, self.end);
        let held = end - start;
        shift(self.room.as_mut_slice(), start, end);
        self.start = 0;
        self.end = held;
        let to = held + most.min(MOST_IN_HAND - held);
        let count = read_into(input, self.room.as_mut_slice(), held, to)?;
        self.end = held + count;
        Ok(count)
    }
}
