//! Tables of numbers.

ghost use Rattle.std.specs.Prelude.{◌≡◌, ◌++◌, ◌∷◌, [], ℕ, ℤ, List, Bool, length, filter, not, None, drop, true, false};
ghost use Rattle.acn_grammar.specs.Env.{at_slot};
ghost use Rattle.acn_grammar.specs.Tree.{holds};
ghost use Rattle.acn_open_slots.specs.Noted.{OnceEach};

/// A table of the numbers of slots, each slot once.
pub trait SlotTable: Drop {
    /// The numbers, in the order in which they were noted.
    ghost env: { Self → List (ℕ × ℤ) };

    /// How many places there are.
    ghost places: { ℕ };

    /// The numbers.
    fn items(&self) -> &[(u32, i128)]
        ensures { result.now ≡ env self.now };

    /// Each slot has one number.
    fn once(&self)
        ensures { OnceEach (env self.now) };

    /// Notes the number of a slot that has none yet. False, with no number noted, exactly where each place is taken.
    fn note(&mut self, slot: u32, x: &i128) -> bool
        requires { at_slot (env self.old) slot ≡ None }
        ensures noted { result ≡ true → env self.new ≡ env self.old ++ (slot, x.now) ∷ [] }
        ensures full { result ≡ false → length (env self.old) ≡ places }
        ensures kept { result ≡ false → env self.new ≡ env self.old };

    /// Forgets the numbers of these slots.
    fn forget(&mut self, home: &[u32])
        ensures { env self.new ≡ filter (λ e. not (holds home.now e.0)) (env self.old) };
}

/// Whether a slot is among some.
pub fn is_among(slots: &[u32], slot: u32) -> bool
    ensures { result ≡ holds slots.now slot }
{
    for other in slots {
        if *other == slot {
            return true;
        }
    }
    false
}
