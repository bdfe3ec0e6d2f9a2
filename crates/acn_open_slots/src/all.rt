ghost use Rattle.std.specs.Prelude.{◌≡◌, ◌≤◌, ◌<◌, [], length};
ghost use Rattle.acn_open_slots.specs.Noted.{OnceEach};

use crate::table::{SlotTable, is_among};
use acn_grammar::MOST_OPEN_SLOTS;
use arrayvec::ArrayVec;
use std::marker::Model;

/// The numbers of at most `MOST_OPEN_SLOTS` slots, so many as are open at once. Contracts see them as an environment, in the order of reading.
#[derive(Drop)]
pub struct AllSlots {
    numbers: ArrayVec<(u32, i128), MOST_OPEN_SLOTS>,
}

impl Model for AllSlots {
    ghost use Rattle.std.specs.Prelude.{List, ℕ, ℤ, length, ◌≤◌};
    ghost use Rattle.acn_open_slots.specs.Noted.{OnceEach};
    ghost use Rattle.acn_grammar.specs.declared.limits.TheConstants.{MOST_OPEN_SLOTS};

    ghost Value = { List (ℕ × ℤ) };

    ghost view = { λ slots. slots.numbers.items };

    ghost invariant = { λ slots. (length slots.numbers.items ≤ MOST_OPEN_SLOTS) × OnceEach slots.numbers.items };
}

impl AllSlots {
    /// No number is noted yet.
    pub fn new() -> AllSlots
        ensures { result ≡ [] }
    {
        AllSlots {
            numbers: ArrayVec::new(),
        }
    }
}

impl SlotTable for AllSlots {
    ghost use Rattle.acn_grammar.specs.declared.limits.TheConstants.{MOST_OPEN_SLOTS};

    ghost env = { λ slots. slots };

    ghost places = { MOST_OPEN_SLOTS };

    fn items(&self) -> &[(u32, i128)] {
        self.numbers.as_slice()
    }

    fn once(&self) {
        let _numbers = self.numbers.as_slice();
    }

    fn note(&mut self, slot: u32, x: &i128) -> bool {
        if self.numbers.len() < MOST_OPEN_SLOTS {
            self.numbers.push((slot, *x));
            true
        } else {
            false
        }
    }

    fn forget(&mut self, home: &[u32]) {
        if home.is_empty() {
            return;
        }
        self.numbers.retain(|number| !is_among(home, number.0));
    }
}
