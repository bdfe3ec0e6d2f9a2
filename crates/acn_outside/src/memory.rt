ghost use Rattle.std.specs.Prelude.{◌≡◌, ◌≤◌, ◌<◌, [], length, take, drop, Option, Some, IfOk, OnOk, OnErr, is_err, option_map};
ghost use Rattle.acn_outside.specs.Counts.{Rose, Stays};
ghost use Rattle.acn_outside.specs.Moves.{Takes, Gains, IsUsedUp};
ghost use Rattle.acn_outside.specs.Memory.{fails, fitting, one_more};

use crate::failing::Failing;
use crate::feed::Feed;
use crate::room::Room;
use crate::{Failed, Sink, Source};

/// An input in memory, which gives at most `piece` bytes in a call. It tells what is left.
#[derive(Drop)]
pub struct MemSource {
    feed: Feed,
    failing: Failing,
    faults: u64,
}

impl MemSource {
    /// The calls whose numbers, from 0, stand in `fail` fail, and no others.
    pub fn new(bytes: Vec<u8>, piece: usize, fail: Vec<u64>) -> MemSource
        requires { 1 ≤ piece }
        ensures rest { ⟦<MemSource as Source>⟧.rest result ≡ Some bytes.items }
        ensures faults { ⟦<MemSource as Source>⟧.faults result ≡ 0 }
        ensures piece { result.feed.piece ≡ piece }
        ensures numbers { result.failing.numbers ≡ fail }
        ensures call { result.failing.call ≡ 0 }
    {
        MemSource {
            feed: Feed::new(bytes, piece),
            failing: Failing::new(fail),
            faults: 0,
        }
    }
}

impl Source for MemSource {
    ghost rest = { λ s. Some s.feed.rest };

    ghost faults = { λ s. s.faults };

    fn read(&mut self, into: &mut [u8]) -> Result<usize, Failed>
        ensures within { IfOk result (λ n. n ≤ length into.old) }
        ensures moved { IfOk result (λ n. Takes (Some self.old.feed.rest) (Some self.new.feed.rest) (take n into.new)) }
        ensures end { IfOk result (λ n. n ≡ 0 → 0 < length into.old → IsUsedUp (Some self.new.feed.rest)) }
        ensures count { self.old.faults ≤ self.new.faults }
        ensures failed { OnErr result (Rose self.old.faults self.new.faults) }
        ensures uncounted { OnOk result (Stays self.old.faults self.new.faults) }
        ensures kept { OnErr result (Some self.new.feed.rest ≡ Some self.old.feed.rest) }
        ensures listed { is_err result ≡ fails self.old.failing.numbers.items self.old.failing.call }
        ensures at_most { IfOk result (λ n. n ≤ self.old.feed.piece) }
        ensures numbers { self.new.failing.numbers ≡ self.old.failing.numbers }
        ensures call { self.new.failing.call ≡ one_more self.old.failing.call }
        ensures piece { self.new.feed.piece ≡ self.old.feed.piece }
    {
        if self.failing.next_fails() {
            self.faults = self.faults.saturating_add(1);
            return Err(Failed);
        }
        Ok(self.feed.give(into))
    }
}

/// An input in memory that never fails, and gives at most `piece` bytes in a call. It tells what is left.
#[derive(Drop)]
pub struct SureSource {
    feed: Feed,
}

impl SureSource {
    /// All these bytes are still to be read.
    pub fn new(bytes: Vec<u8>, piece: usize) -> SureSource
        requires { 1 ≤ piece }
        ensures rest { ⟦<SureSource as Source>⟧.rest result ≡ Some bytes.items }
        ensures piece { result.feed.piece ≡ piece }
    {
        SureSource {
            feed: Feed::new(bytes, piece),
        }
    }
}

impl Source for SureSource {
    ghost rest = { λ s. Some s.feed.rest };

    ghost faults = { λ _. 0 };

    fn read(&mut self, into: &mut [u8]) -> Result<usize, Failed>
        ensures within { IfOk result (λ n. n ≤ length into.old) }
        ensures moved { IfOk result (λ n. Takes (Some self.old.feed.rest) (Some self.new.feed.rest) (take n into.new)) }
        ensures end { IfOk result (λ n. n ≡ 0 → 0 < length into.old → IsUsedUp (Some self.new.feed.rest)) }
        ensures count { 0 ≤ 0 }
        ensures failed { OnErr result (Rose 0 0) }
        ensures uncounted { OnOk result (Stays 0 0) }
        ensures kept { OnErr result (Some self.new.feed.rest ≡ Some self.old.feed.rest) }
        ensures at_most { IfOk result (λ n. n ≤ self.old.feed.piece) }
        ensures piece { self.new.feed.piece ≡ self.old.feed.piece }
    {
        Ok(self.feed.give(into))
    }
}

/// An output in memory, which takes at most `piece` bytes in a call. It tells its bytes while all of them fitted.
#[derive(Drop)]
pub struct MemSink {
    room: Room,
    failing: Failing,
    faults: u64,
}

impl MemSink {
    /// Writes over `room` from its front, as far as its length goes, and takes no memory.
    /// The calls whose numbers, from 0, stand in `fail` fail, and no others.
    pub fn new(room: Vec<u8>, piece: usize, fail: Vec<u64>) -> MemSink
        requires { 1 ≤ piece }
        ensures taken { ⟦<MemSink as Sink>⟧.taken result ≡ Some [] }
        ensures faults { ⟦<MemSink as Sink>⟧.faults result ≡ 0 }
        ensures size { result.room.size ≡ length room.items }
        ensures piece { result.room.piece ≡ piece }
        ensures numbers { result.failing.numbers ≡ fail }
        ensures call { result.failing.call ≡ 0 }
    {
        MemSink {
            room: Room::new(room, piece),
            failing: Failing::new(fail),
            faults: 0,
        }
    }

    /// The bytes taken, while all of them fitted.
    pub fn bytes(&self) -> Option<&[u8]>
        ensures { option_map (λ bytes. bytes.now) result ≡ ⟦<MemSink as Sink>⟧.taken self.now }
    {
        self.room.bytes()
    }
}

impl Sink for MemSink {
    ghost taken = { λ s. s.room.taken };

    ghost faults = { λ s. s.faults };

    fn write(&mut self, from: &[u8]) -> Result<usize, Failed>
        ensures within { IfOk result (λ n. n ≤ length from.now) }
        ensures some { IfOk result (λ n. 0 < length from.now → 0 < n) }
        ensures moved { IfOk result (λ n. Gains self.old.room.taken self.new.room.taken (take n from.now)) }
        ensures count { self.old.faults ≤ self.new.faults }
        ensures failed { OnErr result (Rose self.old.faults self.new.faults) }
        ensures uncounted { OnOk result (Stays self.old.faults self.new.faults) }
        ensures kept { OnErr result (self.new.room.taken ≡ self.old.room.taken) }
        ensures told { IfOk result (λ n. self.new.room.taken ≡ fitting self.old.room.size self.old.room.taken (take n from.now)) }
        ensures listed { is_err result ≡ fails self.old.failing.numbers.items self.old.failing.call }
        ensures at_most { IfOk result (λ n. n ≤ self.old.room.piece) }
        ensures numbers { self.new.failing.numbers ≡ self.old.failing.numbers }
        ensures call { self.new.failing.call ≡ one_more self.old.failing.call }
        ensures piece { self.new.room.piece ≡ self.old.room.piece }
        ensures size { self.new.room.size ≡ self.old.room.size }
    {
        if self.failing.next_fails() {
            self.faults = self.faults.saturating_add(1);
            return Err(Failed);
        }
        Ok(self.room.accept(from))
    }
}

/// An output in memory that never fails, and takes at most `piece` bytes in a call.
/// It tells its bytes while all of them fitted.
#[derive(Drop)]
pub struct SureSink {
    room: Room,
}

impl SureSink {
    /// Writes over `room` from its front, as far as its length goes, and takes no memory.
    pub fn new(room: Vec<u8>, piece: usize) -> SureSink
        requires { 1 ≤ piece }
        ensures taken { ⟦<SureSink as Sink>⟧.taken result ≡ Some [] }
        ensures size { result.room.size ≡ length room.items }
        ensures piece { result.room.piece ≡ piece }
    {
        SureSink {
            room: Room::new(room, piece),
        }
    }

    /// The bytes taken, while all of them fitted.
    pub fn bytes(&self) -> Option<&[u8]>
        ensures { option_map (λ bytes. bytes.now) result ≡ ⟦<SureSink as Sink>⟧.taken self.now }
    {
        self.room.bytes()
    }
}

impl Sink for SureSink {
    ghost taken = { λ s. s.room.taken };

    ghost faults = { λ _. 0 };

    fn write(&mut self, from: &[u8]) -> Result<usize, Failed>
        ensures within { IfOk result (λ n. n ≤ length from.now) }
        ensures some { IfOk result (λ n. 0 < length from.now → 0 < n) }
        ensures moved { IfOk result (λ n. Gains self.old.room.taken self.new.room.taken (take n from.now)) }
        ensures count { 0 ≤ 0 }
        ensures failed { OnErr result (Rose 0 0) }
        ensures uncounted { OnOk result (Stays 0 0) }
        ensures kept { OnErr result (self.new.room.taken ≡ self.old.room.taken) }
        ensures told { IfOk result (λ n. self.new.room.taken ≡ fitting self.old.room.size self.old.room.taken (take n from.now)) }
        ensures at_most { IfOk result (λ n. n ≤ self.old.room.piece) }
        ensures piece { self.new.room.piece ≡ self.old.room.piece }
        ensures size { self.new.room.size ≡ self.old.room.size }
    {
        Ok(self.room.accept(from))
    }
}
