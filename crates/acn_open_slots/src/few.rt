ghost use Rattle.std.specs.Prelude.{◌≡◌, ◌≤◌, ◌<◌, [], length};
ghost use Rattle.acn_open_slots.specs.Noted.{OnceEach};

use crate::table::{SlotTable, is_among};
use arrayvec::ArrayVec;
use std::marker::Model;

/// So many places as most packets need.
pub const FEW_SLOTS: usize = 16;

/// The numbers of at most `FEW_SLOTS` slots. Contracts see them as an environment, in the order of reading.
#[derive(Drop)]
pub struct FewSlots {
    numbers: ArrayVec<(u32, i128), FEW_SLOTS>,
}

impl Model for FewSlots {
    ghost use Rattle.std.specs.Prelude.{List, ℕ, ℤ, length, ◌≤◌};
    ghost use Rattle.acn_open_slots.specs.Noted.{OnceEach};
    ghost use Rattle.acn_open_slots.specs.declared.few.TheConstants.{FEW_SLOTS};

    ghost Value = { List (ℕ × ℤ) };

    ghost view = { λ slots. slots.numbers.items };

    ghost invariant = { λ slots. (length slots.numbers.items ≤ FEW_SLOTS) × OnceEach slots.numbers.items };
}

impl FewSlots {
    /// No number is noted yet.
    pub fn new() -> FewSlots
        ensures { result ≡ [] }
    {
        FewSlots {
            numbers: ArrayVec::new(),
        }
    }
}

impl SlotTable for FewSlots {
    ghost use Rattle.acn_open_slots.specs.declared.few.TheConstants.{FEW_SLOTS};

    ghost env = { λ slots. slots };

    ghost places = { FEW_SLOTS };

    fn items(&self) -> &[(u32, i128)] {
        self.numbers.as_slice()
    }

    fn once(&self) {
        let _numbers = self.numbers.as_slice();
    }

    fn note(&mut self, slot: u32, x: &i128) -> bool {
        if self.numbers.len() < FEW_SLOTS {
            self.numbers.push((slot, *x));
            true
        } else {
            false
        }
    }

    fn forget(&mut self, home: &[u32]) {
        if home.is_empty() {
            return;
        }
        self.numbers.retain(|number| !is_among(home, number.0));
    }
}
