//! An input that is read up to a limit.

ghost use Rattle.std.specs.Prelude.{◌≡◌, ◌<◌, ◌≤◌, [], length, drop, IfOk, OnOk, OnErr};
ghost use Rattle.acn_outside.specs.Counts.{Rose, Stays};
ghost use Rattle.acn_supply.specs.Reading.{Supplied, Reads};
ghost use Rattle.acn_supply.specs.declared.window.TheConstants.{MOST_IN_HAND};

use crate::window::{MOST_IN_HAND, Window};
use acn_num::NoMemory;
use acn_outside::{Failed, Source};
use std::alloc::Global;
use std::marker::Model;

/// What a read gave.
#[derive(Clone, Copy)]
pub enum More {
    /// Some bytes more are in hand.
    Bytes,
    /// The input is used up.
    End,
    /// All bytes up to the limit were taken, and one more came.
    PastLimit,
}

/// The bytes in hand of an input, and how many more may be taken of it.
#[derive(Drop)]
pub struct Supply {
    window: Window,
    left: u64,
}

impl Model for Supply {
    ghost use Rattle.acn_supply.specs.Reading.{Supplied};

    ghost Value = { Supplied };

    ghost view = { λ s. record { hand = s.window; left = s.left } };
}

impl Supply {
    /// Nothing is in hand. The memory is taken here, and nowhere else.
    pub fn new(alloc: Global, limit: u64) -> Result<Supply, NoMemory>
        ensures { IfOk result (λ s. s ≡ record { hand = []; left = limit }) }
    {
        Ok(Supply {
            window: Window::new(alloc)?,
            left: limit,
        })
    }

    /// The bytes in hand.
    pub fn hand(&self) -> &[u8]
        ensures same { result.now ≡ self.now.hand }
        ensures few { length result.now ≤ MOST_IN_HAND }
    {
        self.window.bytes()
    }

    /// Lets the first bytes in hand go.
    pub fn skip(&mut self, count: usize)
        requires { count ≤ length self.old.hand }
        ensures { self.new ≡ record { hand = drop count self.old.hand; left = self.old.left } }
    {
        self.window.skip(count);
    }

    /// Reads once. `Failed` comes only where the input's count of faults rose; then nothing was read. Else the
    /// count stays.
    pub fn more<S: Source>(&mut self, input: &mut S) -> Result<More, Failed>
        requires { length self.old.hand < MOST_IN_HAND }
        ensures read { Reads result self.old self.new (S.rest input.old) (S.rest input.new) }
        ensures count { S.faults input.old ≤ S.faults input.new }
        ensures failed { OnErr result (Rose (S.faults input.old) (S.faults input.new)) }
        ensures uncounted { OnOk result (Stays (S.faults input.old) (S.faults input.new)) }
    {
        if self.left == 0 {
            return past(input);
        }
        let most = self.left.min(MOST_IN_HAND as u64) as usize;
        let count = self.window.refill(input, most)?;
        self.left -= count as u64;
        Ok(if count == 0 { More::End } else { More::Bytes })
    }
}

// Whether one byte more comes, where no more may be taken.
fn past<S: Source>(input: &mut S) -> Result<More, Failed>
    ensures read { (s : Supplied) → s.left ≡ 0 → Reads result s s (S.rest input.old) (S.rest input.new) }
    ensures count { S.faults input.old ≤ S.faults input.new }
    ensures failed { OnErr result (Rose (S.faults input.old) (S.faults input.new)) }
    ensures uncounted { OnOk result (Stays (S.faults input.old) (S.faults input.new)) }
{
    let mut byte = [0u8; 1];
    let count = input.read(&mut byte)?;
    Ok(if count == 0 {
        More::End
    } else {
        More::PastLimit
    })
}
