//! The slots of a tree that is to be made, with their numbers and homes.

ghost use Rattle.std.specs.Prelude.{◌≡◌, ◌≤◌, List, ℕ, ◌++◌, ◌∷◌, [], cond, length, IfOk, OnOk};
ghost use Rattle.acn_homes.specs.Homes as spec;
ghost use Rattle.acn_homes.specs.View.{slots_view, found};
ghost use Rattle.acn_homes.specs.declared.homes.TheConstants.{MOST_SLOTS};

use crate::slots::{Slot, place, slots};
use crate::uses::Use;
use acn_num::{NoMemory, Row};
use std::alloc::Global;
use std::collections::BTreeMap;
use std::marker::Model;

/// So many slots have numbers of 32 bits.
pub const MOST_SLOTS: usize = 4_294_967_296;

/// The slots of a tree that is to be made, which contracts see as their list in the order of their numbers.
#[derive(Drop)]
pub struct Homes<'p> {
    slots: Vec<Slot<'p>>,
    // The numbers of the slots at home at each path, ascending.
    numbers: BTreeMap<&'p [usize], Vec<u32>>,
}

impl<'p> Model for Homes<'p> {
    ghost use Rattle.std.specs.Prelude.{◌≡◌, ◌≤◌, List, ℕ, length};
    ghost use Rattle.acn_homes.specs.Homes as spec;
    ghost use Rattle.acn_homes.specs.View.{slots_view, slot_fields, found};
    ghost use Rattle.acn_homes.specs.declared.homes.TheConstants.{MOST_SLOTS};

    ghost Value = { List spec.Slot };

    ghost view = { λ homes. slots_view homes.slots.items };

    ghost invariant = { λ homes. spec.Rises (slot_fields (slots_view homes.slots.items)) × (length homes.slots.items ≤ MOST_SLOTS) × ((path : List ℕ) → found homes.numbers path ≡ spec.at_home (slots_view homes.slots.items) path) };
}

// Notes the number of a slot at its home.
fn note<'p>(
    alloc: Global,
    numbers: &mut BTreeMap<&'p [usize], Vec<u32>>,
    home: &'p [usize],
    number: u32,
) -> Result<(), NoMemory>
    ensures { OnOk result ((path : List ℕ) → found numbers.new path ≡ found numbers.old path ++ cond (spec.same path home.now) (number ∷ []) []) }
{
    let mut here = numbers.remove(home).unwrap_or(Vec::new(alloc));
    here.push(number)?;
    numbers.insert(home, here)?;
    Ok(())
}

// The numbers of the slots at home at each path.
fn numbers_by_home<'p>(
    alloc: Global,
    slots: &[Slot<'p>],
) -> Result<BTreeMap<&'p [usize], Vec<u32>>, NoMemory>
    requires { length slots.now ≤ MOST_SLOTS }
    ensures { IfOk result (λ numbers. (path : List ℕ) → found numbers path ≡ spec.at_home (slots_view slots.now) path) }
{
    let mut numbers = BTreeMap::new(alloc);
    for (number, slot) in slots.iter().enumerate() {
        note(alloc, &mut numbers, slot.home, number as u32)?;
    }
    Ok(numbers)
}

impl<'p> Homes<'p> {
    /// The slots of the fields that are inserted, other than NULL, and of those that the uses name, each field once. `NoMemory`
    /// comes where memory is wanting.
    pub fn new(
        alloc: Global,
        inserted: &'p [Row<usize>],
        uses: &'p [Use],
    ) -> Result<Homes<'p>, NoMemory>
        requires { length (spec.slots inserted.now uses.now) ≤ MOST_SLOTS }
        ensures { IfOk result (λ homes. homes ≡ spec.slots inserted.now uses.now) }
    {
        let slots = slots(alloc, inserted, uses)?;
        let numbers = numbers_by_home(alloc, slots.as_slice())?;
        Ok(Homes { slots, numbers })
    }

    /// How many slots there are. Their numbers are those below it.
    pub fn count(&self) -> usize
        ensures { result ≡ length self.now }
    {
        self.slots.len()
    }

    /// The number of the slot whose field has this path: its place in preorder among the fields that have a slot. None comes
    /// exactly where none has it.
    pub fn number(&self, path: &[usize]) -> Option<u32>
        ensures { result ≡ spec.number self.now path.now }
    {
        let at = place(self.slots.as_slice(), path)?;
        Some(at as u32)
    }

    /// The numbers of the slots at home in the SEQUENCE at this path, ascending.
    pub fn at_home(&self, path: &[usize]) -> &[u32]
        ensures { result.now ≡ spec.at_home self.now path.now }
    {
        match self.numbers.get(path) {
            Some(numbers) => numbers.as_slice(),
            None => &[],
        }
    }
}
