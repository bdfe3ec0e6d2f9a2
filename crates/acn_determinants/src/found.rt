ghost use Rattle.std.specs.Prelude.{◌≡◌, ℕ, None, OnOk, option_map, nat_eq};
ghost use Rattle.acn_grammar.specs.Slots.{first_of_two};
ghost use Rattle.acn_determinants.specs.Spots.{noted_at, spot_of, here_or};
ghost use Rattle.std.specs.Prelude.{Some};

use acn_grammar::NumLeaf;
use acn_num::{NoMemory, Row};
use std::alloc::Global;
use std::collections::HashMap;

/// A field: the steps that lead to it, and the leaf that it is.
#[derive(Drop)]
pub struct Spot<'t> {
    pub steps: Row<u32>,
    pub leaf: Option<&'t NumLeaf>,
}

/// The fields of slots that were met so far, for each slot the first.
#[derive(Drop)]
pub struct Found<'t> {
    pub spots: HashMap<u32, Spot<'t>>,
}

impl<'t> Found<'t> {
    /// No fields. It takes no memory.
    pub fn new(alloc: Global) -> Found<'t>
        ensures { (s : ℕ) → noted_at result s ≡ None }
    {
        Found {
            spots: HashMap::new(alloc),
        }
    }

    /// The field of a slot, where it was met. It takes no memory.
    pub fn of(&self, slot: u32) -> Option<&Spot<'t>>
        ensures { option_map (λ spot. spot_of spot.now) result ≡ noted_at self.now slot }
    {
        self.spots.get(&slot)
    }

    /// Notes the field of a slot, unless one was met before.
    pub fn note(&mut self, slot: u32, spot: Spot<'t>) -> Result<(), NoMemory>
        ensures { OnOk result ((s : ℕ) → noted_at self.new s ≡ first_of_two (noted_at self.old s) (here_or (Some slot) s (spot_of spot.entry) None)) }
    {
        if self.spots.contains_key(&slot) {
            return Ok(());
        }
        self.spots.insert(slot, spot)?;
        Ok(())
    }
}
