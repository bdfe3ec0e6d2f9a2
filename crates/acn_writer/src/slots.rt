ghost use Rattle.std.specs.Prelude.{◌≡◌, ◌+◌, ◌<◌, [], ◌∷◌, List, ℕ, ℤ, pos, true, false, Some, None, IsTrue, OnOk, OnErr, MatchOption, length};
ghost use Rattle.acn_num.specs.Ranges.{In};
ghost use Rattle.acn_bits.specs.Overwrite.{Gap};
ghost use Rattle.acn_fill.specs.Table.{AllBegun, Keeps, OneMore, begun, gap_at};
ghost use Rattle.acn_grammar.specs.Asks.{Ask as Wanted, Avoid, Equal};
ghost use Rattle.acn_grammar.specs.AsksOn.{LeastAnswer};
ghost use Rattle.acn_grammar.specs.Faults.{ask_of};
ghost use Rattle.acn_grammar.specs.Interval.{width_of};
ghost use Rattle.acn_grammar.specs.Leaves.{num_fine};
ghost use Rattle.acn_events.specs.Event.{leaf_of, leaves_without};
ghost use Rattle.acn_events.specs.Laws.{empty_table};
ghost use Rattle.acn_events.specs.Steps.{Ends, IsBegun};
ghost use Rattle.acn_writer.specs.Halts.{AsksHalt};
ghost use Rattle.acn_writer.specs.Slots.{HoleEnds};
ghost use Rattle.acn_writer.specs.declared.halt.Halt.TheVariants.{Unmet};

use crate::halt::{Halt, Halted, tell};
use crate::leaf::{SlotLeaf, place_of};
use acn_bits::Hole;
use acn_fill::{Conflict, Fills};
use acn_grammar::{Ask, NumLeaf};
use arrayvec::ArrayVec;
use std::marker::Model;

fn unmet(slot: u32, conflict: Conflict) -> Halt
    ensures { result ≡ Unmet slot conflict.earlier conflict.wanted }
{
    Halt::Unmet {
        slot,
        earlier: conflict.earlier,
        wanted: conflict.wanted,
    }
}

/// A hole that is to be filled, the leaf of its slot, and the least number that meets what was
/// asked.
pub struct Filling<'p> {
    pub hole: Hole,
    pub leaf: &'p NumLeaf,
    pub number: i128,
}

/// The slots that are begun, and the leaf of each that has a hole.
pub struct Slots<'p, const S: usize, const A: usize> {
    fills: Fills<'p, S, A>,
    leaves: ArrayVec<SlotLeaf<'p>, S>,
}

impl<'p, const S: usize, const A: usize> Model for Slots<'p, S, A> {
    ghost use Rattle.acn_writer.specs.Leaves.{leaves_in};
    ghost use Rattle.acn_writer.specs.Slots.{OpenSlots, Tied};

    ghost Value = { OpenSlots };

    ghost view = { λ s. record { table = s.fills; leaves = leaves_in s.leaves.items } };

    ghost invariant = { λ s. Tied s.fills s.leaves.items };
}

impl<'p, const S: usize, const A: usize> Slots<'p, S, A> {
    /// None is begun.
    pub fn new() -> Slots<'p, S, A>
        ensures { result ≡ record { table = empty_table; leaves = [] } }
    {
        Slots {
            fills: Fills::new(),
            leaves: ArrayVec::new(),
        }
    }

    /// Whether a slot is begun.
    pub fn is_begun(&self, slot: u32) -> bool
        ensures { result ≡ begun self.now.table slot }
    {
        self.fills.is_begun(slot)
    }

    /// Whether there is room for one more slot.
    pub fn can_begin(&self) -> bool
        ensures room { result ≡ true → length self.now.table.spots < S }
        ensures full { result ≡ false → AllBegun S self.now.table }
    {
        self.fills.can_begin()
    }

    /// Each slot that is begun has a place in the order of holes.
    pub fn check_places(&self)
        ensures { length self.now.table.gaps ≡ length self.now.table.spots }
    {
        let _leaves = self.leaves.len();
    }

    /// The slot that was begun last, if any is begun.
    pub fn last_begun(&self) -> Option<u32>
        ensures { MatchOption result ((slot : ℕ) → begun self.now.table slot ≡ false) (λ slot. begun self.now.table slot ≡ true) }
    {
        self.fills.last_begun()
    }

    /// Begins a slot with the hole for its number, which ends at a place.
    pub fn open(&mut self, slot: u32, leaf: &'p NumLeaf, hole: Hole, end: u64)
        requires fine { IsTrue (num_fine leaf.now) }
        requires width { width_of leaf.now ≡ Some hole.width }
        requires ends { end ≡ hole.place + hole.width }
        requires room { length self.old.table.spots < S }
        requires fresh { begun self.old.table slot ≡ false }
        ensures keeps { Keeps leaf.now.set [] self.new.table slot }
        ensures begun_so { IsBegun slot (Some hole) self.old.table self.new.table }
        ensures leaves { self.new.leaves ≡ (slot, leaf.now) ∷ self.old.leaves }
    {
        let entry = SlotLeaf {
            slot,
            leaf: Some(leaf),
            end,
        };
        self.leaves.insert(0, entry);
        self.fills.begin(slot, &leaf.set, hole);
    }

    /// Begins a slot with its number.
    pub fn note(&mut self, slot: u32, n: i128)
        requires room { length self.old.table.spots < S }
        requires fresh { begun self.old.table slot ≡ false }
        ensures keeps { (set : List (ℤ × ℤ)) → In set n → Keeps set (Equal n ∷ []) self.new.table slot }
        ensures begun_so { IsBegun slot None self.old.table self.new.table }
        ensures leaves { self.new.leaves ≡ self.old.leaves }
    {
        self.fills.begin_fixed(slot, n);
    }

    /// Asks a slot.
    pub fn ask(&mut self, slot: u32, ask: Ask, why: &mut Halt) -> Result<(), Halted>
        ensures begun { OnOk result (begun self.old.table slot ≡ true) }
        ensures more { OnOk result (OneMore slot (ask_of ask) self.old.table self.new.table) }
        ensures leaves { self.new.leaves ≡ self.old.leaves }
        ensures halted { OnErr result (AsksHalt S A slot (ask_of ask) self.old.table why.new) }
        ensures same { OnErr result (self.new ≡ self.old) }
    {
        if !self.fills.is_begun(slot) {
            return Err(tell(why, Halt::Lost));
        }
        match ask {
            Ask::Equal(n) => self.equal(slot, n, why),
            Ask::Avoid(k) => self.avoid(slot, k, why),
        }
    }

    fn equal(&mut self, slot: u32, n: i128, why: &mut Halt) -> Result<(), Halted>
        requires begun { begun self.old.table slot ≡ true }
        ensures more { OnOk result (OneMore slot (Equal n) self.old.table self.new.table) }
        ensures leaves { self.new.leaves ≡ self.old.leaves }
        ensures halted { OnErr result (AsksHalt S A slot (Equal n) self.old.table why.new) }
        ensures same { OnErr result (self.new ≡ self.old) }
    {
        match self.fills.equal(slot, n) {
            Ok(()) => Ok(()),
            Err(conflict) => Err(tell(why, unmet(slot, conflict))),
        }
    }

    fn avoid(&mut self, slot: u32, k: i128, why: &mut Halt) -> Result<(), Halted>
        requires begun { begun self.old.table slot ≡ true }
        ensures more { OnOk result (OneMore slot (Avoid k) self.old.table self.new.table) }
        ensures leaves { self.new.leaves ≡ self.old.leaves }
        ensures halted { OnErr result (AsksHalt S A slot (Avoid k) self.old.table why.new) }
        ensures same { OnErr result (self.new ≡ self.old) }
    {
        if !self.fills.can_avoid(slot, k) {
            return Err(tell(why, Halt::Full));
        }
        match self.fills.avoid(slot, k) {
            Ok(()) => Ok(()),
            Err(conflict) => Err(tell(why, unmet(slot, conflict))),
        }
    }

    /// Where the hole of a begun slot ends, if it has one.
    pub fn hole_end(&self, slot: u32) -> Option<u64>
        requires begun { begun self.now.table slot ≡ true }
        ensures { HoleEnds result (gap_at self.now.table slot) }
    {
        if !self.fills.has_hole(slot) {
            return None;
        }
        let leaves = self.leaves.as_slice();
        let at = place_of(leaves, slot);
        Some(leaves[at].end)
    }

    /// Ends a slot that was begun with a hole.
    pub fn end_opened(&mut self, slot: u32) -> Filling<'p>
        requires begun { begun self.old.table slot ≡ true }
        requires hole { (gap : Gap) × (gap_at self.old.table slot ≡ Some (Some gap)) }
        ensures hole { gap_at self.old.table slot ≡ Some (Some result.hole) }
        ensures leaf { leaf_of slot self.old.leaves ≡ Some result.leaf.now }
        ensures fine { IsTrue (num_fine result.leaf.now) }
        ensures width { width_of result.leaf.now ≡ Some result.hole.width }
        ensures least { (set : List (ℤ × ℤ)) (wanted : List Wanted) → Keeps set wanted self.old.table slot → LeastAnswer set wanted result.number }
        ensures some { (wanted : List Wanted) × Keeps result.leaf.now.set wanted self.old.table slot }
        ensures ended { Ends slot self.old.table self.new.table }
        ensures leaves { self.new.leaves ≡ leaves_without slot self.old.leaves }
        ensures few { length self.new.table.spots + 1 ≡ length self.old.table.spots }
    {
        let at = place_of(self.leaves.as_slice(), slot);
        let entry = self.leaves.remove(at);
        let (hole, number) = self.fills.finish(slot);
        match entry.leaf {
            Some(leaf) => Filling { hole, leaf, number },
            None => unreachable!(),
        }
    }

    /// Ends a slot that was begun with its number.
    pub fn end_noted(&mut self, slot: u32)
        requires begun { begun self.old.table slot ≡ true }
        requires hole { gap_at self.old.table slot ≡ Some None }
        ensures ended { Ends slot self.old.table self.new.table }
        ensures leaves { self.new.leaves ≡ self.old.leaves }
        ensures few { length self.new.table.spots + 1 ≡ length self.old.table.spots }
    {
        self.fills.finish_fixed(slot);
    }

    /// Ends it, where none is begun.
    pub fn close(self)
        requires { (slot : ℕ) → begun self.table slot ≡ false }
    {
        let Slots { fills, leaves: _ } = self;
        fills.close();
    }
}
