ghost use Rattle.std.specs.Prelude.{◌≡◌, ◌+◌, ◌*◌, ◌<◌, ◌≤◌, length, [], ◌∷◌, ◌++◌, List, ℕ, ℤ, true, false, nat_eq, Option, Some, None, OnOk, OnErr, IfErr, MatchOption, slice_set, take, ◌-◌, option_map, remove};
ghost use Rattle.arrayvec.specs.ArrayVec.{array_vec_len};
ghost use Rattle.acn_bits.specs.Overwrite.{Gap};
ghost use Rattle.acn_num.specs.Ranges.{In, has, among};
ghost use Rattle.acn_grammar.specs.Asks.{Ask as Wanted, Equal, Avoid};
ghost use Rattle.acn_grammar.specs.AsksOn.{LeastAnswer};
ghost use Rattle.acn_grammar.specs.Faults.{ask_of};
ghost use Rattle.acn_fill.specs.declared.spot.TheConstants.{MOST_AVOIDED};
ghost use Rattle.acn_fill.specs.Table.{last_slot, Keeps, OneMore, Refuses, SameAt, SameSpot, begun, gap_at, has_spot, place, purged, avoided_on, without, spot_of, frames, HasRoom, AllBegun, TooMany, AreFew, NoneTwice, is_fixed};

pub use crate::spot::{MOST_AVOIDED, MOST_AVOIDED_IN_ALL};
use crate::spot::{
    Spot, avoid, count_avoided, equal, equal_on, first_spot, fixed_spot, has_set, is_avoided,
    is_same, least_free, pop_avoided, push_avoided, put_spot, with_least,
};
use acn_bits::{Hole, Holes};
use acn_grammar::{Ask, MOST_OPEN_SLOTS};
use acn_num::RangeSet;
use arrayvec::ArrayVec;
use std::marker::Model;

/// No permitted number meets what was asked of a slot and the wanted ask. `earlier` is the `Equal` before it that contradicts
/// it, else the `Avoid` that does.
#[derive(Clone, Copy)]
pub struct Conflict {
    pub earlier: Option<Ask>,
    pub wanted: Ask,
}

/// The slots that are begun, with what was asked of each so far and with its hole. It has room for `S` slots and for `A`
/// numbers to avoid on all of them, and takes no memory. Since it keeps holes it can't be dropped: each slot that is begun is
/// finished, and `close` ends the table.
pub struct Fills<'p, const S: usize, const A: usize> {
    spots: ArrayVec<Spot<'p>, S>,
    holes: Holes<S>,
    avoided: ArrayVec<(u32, i128), A>,
}

/// The table with room for as many slots as can be open at once in a packet, and for `MOST_AVOIDED` numbers to avoid on each.
/// It takes half a MiB where it stands.
pub type LargestFills<'p> = Fills<'p, MOST_OPEN_SLOTS, MOST_AVOIDED_IN_ALL>;

impl<'p, const S: usize, const A: usize> Model for Fills<'p, S, A> {
    ghost use Rattle.std.specs.Prelude.{◌≡◌, length};
    ghost use Rattle.acn_fill.specs.Table.{Table, Distinct, Clean, AreFew, have_holes, have_sets};

    ghost Value = { Table };

    ghost view = { λ f. record { spots = f.spots.items; gaps = f.holes; avoided = f.avoided.items } };

    ghost invariant = { λ f. (length f.holes ≡ length f.spots.items) × Distinct f.spots.items × Clean f.spots.items f.avoided.items × AreFew f.avoided.items × (have_holes f.holes ≡ have_sets f.spots.items) };
}

impl<'p, const S: usize, const A: usize> Fills<'p, S, A> {
    /// Nothing is begun.
    pub fn new() -> Fills<'p, S, A>
        ensures { result ≡ record { spots = []; gaps = []; avoided = [] } }
    {
        Fills {
            spots: ArrayVec::new(),
            holes: Holes::new(),
            avoided: ArrayVec::new(),
        }
    }

    /// Whether a slot is begun.
    pub fn is_begun(&self, slot: u32) -> bool
        ensures { result ≡ begun self.now slot }
    {
        has_begun(self.spots.as_slice(), slot)
    }

    /// The slot that was begun last of those that are begun, if any is.
    pub fn last_begun(&self) -> Option<u32>
        ensures begun { MatchOption result ((slot : ℕ) → begun self.now slot ≡ false) (λ slot. begun self.now slot ≡ true) }
        ensures last { result ≡ last_slot self.now.spots }
    {
        let spots = self.spots.as_slice();
        let count = spots.len();
        if count == 0 {
            return None;
        }
        Some(spots[count - 1].slot)
    }

    /// Whether a begun slot has a hole. It has none where it was begun with its number.
    pub fn has_hole(&self, slot: u32) -> bool
        requires begun { begun self.now slot ≡ true }
        ensures hole { result ≡ true → (gap : Gap) × (gap_at self.now slot ≡ Some (Some gap)) }
        ensures none { result ≡ false → gap_at self.now slot ≡ Some None }
    {
        let spots = self.spots.as_slice();
        let i = place_of(spots, slot);
        has_set(&spots[i])
    }

    /// Whether there is room for one more slot. There is none only where `S` different slots are begun.
    pub fn can_begin(&self) -> bool
        ensures room { result ≡ true → length self.now.spots < S }
        ensures full { result ≡ false → AllBegun S self.now }
    {
        self.spots.len() < S
    }

    /// Whether there is room for a number to avoid on a begun slot. Where the table has room for `MOST_AVOIDED` numbers on each
    /// of its slots there is none only where more than `MOST_AVOIDED` different ones are asked of this slot, with this one.
    pub fn can_avoid(&self, slot: u32, k: i128) -> bool
        requires begun { begun self.now slot ≡ true }
        ensures room { result ≡ true → HasRoom A self.now slot k }
        ensures none { result ≡ false → HasRoom A self.now slot k → ⊥ }
        ensures full { result ≡ false → MOST_AVOIDED * S ≤ A → (set : List (ℤ × ℤ)) (wanted : List Wanted) → Keeps set wanted self.now slot → TooMany wanted k }
    {
        self.has_room(slot, &k)
    }

    fn has_room(&self, slot: u32, k: &i128) -> bool
        requires begun { begun self.now slot ≡ true }
        ensures room { result ≡ true → HasRoom A self.now slot k.now }
        ensures none { result ≡ false → HasRoom A self.now slot k.now → ⊥ }
        ensures full { result ≡ false → MOST_AVOIDED * S ≤ A → (set : List (ℤ × ℤ)) (wanted : List Wanted) → Keeps set wanted self.now slot → TooMany wanted k.now }
    {
        let pool = self.avoided.as_slice();
        if pool.len() < A && pool.len() < MOST_AVOIDED {
            return true;
        }
        let spots = self.spots.as_slice();
        let i = place_of(spots, slot);
        let spot = spots[i];
        if spot.fixed {
            return true;
        }
        if is_avoided(pool, slot, k) {
            return true;
        }
        pool.len() < A && count_avoided(pool, slot) < MOST_AVOIDED
    }

    /// Begins a slot, which has these permitted numbers, with the hole for its number. Nothing is asked of it yet.
    pub fn begin(&mut self, slot: u32, set: &'p RangeSet, hole: Hole)
        requires room { length self.old.spots < S }
        requires fresh { begun self.old slot ≡ false }
        requires some { (x : ℤ) × In set.now x }
        ensures kept { Keeps set.now [] self.new slot }
        ensures others { (t : ℕ) → nat_eq t slot ≡ false → SameAt t self.old self.new }
        ensures slots { frames self.new.spots ≡ frames self.old.spots ++ slot ∷ [] }
        ensures holes { self.new.gaps ≡ self.old.gaps ++ Some hole ∷ [] }
        ensures own { (begun self.new slot ≡ true) × (gap_at self.new slot ≡ Some (Some hole)) }
        ensures rest { (t : ℕ) → nat_eq t slot ≡ false → SameSpot t self.old self.new }
    {
        self.spots.push(first_spot(slot, set));
        self.holes.keep(hole);
    }

    /// Begins a slot whose number is given, without a hole. That it is this number is its first ask: so from here on `equal`
    /// refuses each other number, and `avoid` this one, with `earlier` this `Equal`.
    pub fn begin_fixed(&mut self, slot: u32, n: i128)
        requires room { length self.old.spots < S }
        requires fresh { begun self.old slot ≡ false }
        ensures kept { (set : List (ℤ × ℤ)) → In set n → Keeps set (Equal n ∷ []) self.new slot }
        ensures others { (t : ℕ) → nat_eq t slot ≡ false → SameAt t self.old self.new }
        ensures slots { frames self.new.spots ≡ frames self.old.spots ++ slot ∷ [] }
        ensures holes { self.new.gaps ≡ self.old.gaps ++ None ∷ [] }
        ensures own { (begun self.new slot ≡ true) × (gap_at self.new slot ≡ Some None) }
        ensures rest { (t : ℕ) → nat_eq t slot ≡ false → SameSpot t self.old self.new }
    {
        self.spots.push(fixed_spot(slot, &n));
        self.holes.skip();
    }

    /// Asks that a begun slot is this number. `Conflict` comes exactly where no permitted number meets this and what was asked
    /// before; then nothing changes.
    pub fn equal(&mut self, slot: u32, n: i128) -> Result<(), Conflict>
        requires begun { begun self.old slot ≡ true }
        ensures kept { OnOk result (OneMore slot (Equal n) self.old self.new) }
        ensures refused { IfErr result (λ c. Refuses slot (Equal n) self.old (option_map ask_of c.earlier)) }
        ensures wanted { IfErr result (λ c. ask_of c.wanted ≡ Equal n) }
        ensures same { OnErr result (self.new ≡ self.old) }
    {
        self.ask_equal(slot, &n)
    }

    fn ask_equal(&mut self, slot: u32, n: &i128) -> Result<(), Conflict>
        requires begun { begun self.old slot ≡ true }
        ensures kept { OnOk result (OneMore slot (Equal n.now) self.old self.new) }
        ensures refused { IfErr result (λ c. Refuses slot (Equal n.now) self.old (option_map ask_of c.earlier)) }
        ensures wanted { IfErr result (λ c. ask_of c.wanted ≡ Equal n.now) }
        ensures same { OnErr result (self.new ≡ self.old) }
    {
        let i = place_of(self.spots.as_slice(), slot);
        let spot = self.spots[i];
        match equal_on(&spot, self.avoided.as_slice(), n) {
            Ok(next) => {
                put_spot(&mut self.spots, i, next);
                Ok(())
            }
            Err(earlier) => Err(Conflict {
                earlier,
                wanted: equal(n),
            }),
        }
    }

    /// Asks that a begun slot isn't this number, for which there is room. `Conflict` comes exactly where no permitted number
    /// meets this and what was asked before; then nothing changes.
    pub fn avoid(&mut self, slot: u32, k: i128) -> Result<(), Conflict>
        requires begun { begun self.old slot ≡ true }
        requires room { HasRoom A self.old slot k }
        ensures kept { OnOk result (OneMore slot (Avoid k) self.old self.new) }
        ensures refused { IfErr result (λ c. Refuses slot (Avoid k) self.old (option_map ask_of c.earlier)) }
        ensures wanted { IfErr result (λ c. ask_of c.wanted ≡ Avoid k) }
        ensures same { OnErr result (self.new ≡ self.old) }
    {
        self.ask_avoid(slot, &k)
    }

    fn ask_avoid(&mut self, slot: u32, k: &i128) -> Result<(), Conflict>
        requires begun { begun self.old slot ≡ true }
        requires room { HasRoom A self.old slot k.now }
        ensures kept { OnOk result (OneMore slot (Avoid k.now) self.old self.new) }
        ensures refused { IfErr result (λ c. Refuses slot (Avoid k.now) self.old (option_map ask_of c.earlier)) }
        ensures wanted { IfErr result (λ c. ask_of c.wanted ≡ Avoid k.now) }
        ensures same { OnErr result (self.new ≡ self.old) }
    {
        let i = place_of(self.spots.as_slice(), slot);
        let spot = self.spots[i];
        if spot.fixed {
            if is_same(&spot.least, k) {
                return Err(Conflict {
                    earlier: Some(equal(&spot.least)),
                    wanted: avoid(k),
                });
            }
            return Ok(());
        }
        if is_avoided(self.avoided.as_slice(), slot, k) {
            return Ok(());
        }
        push_avoided(&mut self.avoided, slot, k);
        if !is_same(&spot.least, k) {
            return Ok(());
        }
        match least_free(spot.set, self.avoided.as_slice(), slot) {
            Some(least) => {
                put_spot(&mut self.spots, i, with_least(&spot, &least));
                Ok(())
            }
            None => {
                pop_avoided(&mut self.avoided);
                Err(Conflict {
                    earlier: None,
                    wanted: avoid(k),
                })
            }
        }
    }

    /// The hole of a slot that was begun with one, and the least permitted number that meets what was asked of it. The slot isn't
    /// begun then.
    pub fn finish(&mut self, slot: u32) -> (Hole, i128)
        requires begun { begun self.old slot ≡ true }
        requires hole { (gap : Gap) × (gap_at self.old slot ≡ Some (Some gap)) }
        ensures least { (set : List (ℤ × ℤ)) (wanted : List Wanted) → Keeps set wanted self.old slot → LeastAnswer set wanted result.1 }
        ensures hole { gap_at self.old slot ≡ Some (Some result.0) }
        ensures ended { begun self.new slot ≡ false }
        ensures others { (t : ℕ) → nat_eq t slot ≡ false → SameAt t self.old self.new }
        ensures rest { (t : ℕ) → nat_eq t slot ≡ false → SameSpot t self.old self.new }
        ensures slots { self.new.spots ≡ without slot self.old.spots }
        ensures gaps { self.new.gaps ≡ remove self.old.gaps (place slot self.old.spots) }
        ensures few { length self.new.spots + 1 ≡ length self.old.spots }
    {
        let i = place_of(self.spots.as_slice(), slot);
        let spot = self.spots.remove(i);
        let hole = self.holes.release(i);
        purge(&mut self.avoided, slot);
        (hole, spot.least)
    }

    /// Ends a slot that was begun with its number.
    pub fn finish_fixed(&mut self, slot: u32)
        requires begun { begun self.old slot ≡ true }
        requires hole { gap_at self.old slot ≡ Some None }
        ensures ended { begun self.new slot ≡ false }
        ensures others { (t : ℕ) → nat_eq t slot ≡ false → SameAt t self.old self.new }
        ensures rest { (t : ℕ) → nat_eq t slot ≡ false → SameSpot t self.old self.new }
        ensures slots { self.new.spots ≡ without slot self.old.spots }
        ensures gaps { self.new.gaps ≡ remove self.old.gaps (place slot self.old.spots) }
        ensures few { length self.new.spots + 1 ≡ length self.old.spots }
    {
        let i = place_of(self.spots.as_slice(), slot);
        self.spots.remove(i);
        self.holes.unskip(i);
        purge(&mut self.avoided, slot);
    }

    /// Ends the table, where nothing is begun.
    pub fn close(self)
        requires { (slot : ℕ) → begun self slot ≡ false }
    {
        let Fills {
            spots: _,
            holes,
            avoided: _,
        } = self;
        holes.close();
    }
}

fn has_begun(spots: &[Spot<'_>], slot: u32) -> bool
    ensures { result ≡ has_spot slot spots.now }
{
    for spot in spots {
        if spot.slot == slot {
            return true;
        }
    }
    false
}

fn place_of(spots: &[Spot<'_>], slot: u32) -> usize
    requires { has_spot slot spots.now ≡ true }
    ensures found { result ≡ place slot spots.now }
    ensures within { result < length spots.now }
{
    for (i, spot) in spots.iter().enumerate() {
        if spot.slot == slot {
            return i;
        }
    }
    unreachable!()
}

// Takes the slot's numbers out.
fn purge<const A: usize>(pool: &mut ArrayVec<(u32, i128), A>, slot: u32)
    ensures { pool.new.items ≡ purged slot pool.old.items }
{
    let mut i = 0;
    while i < pool.len() {
        if pool[i].0 == slot {
            pool.remove(i);
        } else {
            i += 1;
        }
    }
}
