ghost use Rattle.std.specs.Prelude.{◌≡◌, Option, None, OnOk, IfOk, cond, Some};
ghost use Rattle.acn_ends.specs.Ends.{end_of, is_same};

use crate::spot::{End, Spot};
use acn_num::NoMemory;
use std::alloc::Global;
use std::collections::HashMap;

/// Places, and how the steps from them end.
#[derive(Drop)]
pub struct Ends {
    /// The end of each place that was noted.
    pub noted: HashMap<Spot, End>,
}

impl Ends {
    /// No places. It takes no memory.
    pub fn new(alloc: Global) -> Ends
        ensures { (p : Spot) → end_of result p ≡ None }
    {
        Ends {
            noted: HashMap::new(alloc),
        }
    }

    /// How the steps from a place end, where it is noted. It takes no memory.
    pub fn of(&self, from: Spot) -> Option<End>
        ensures { result ≡ end_of self.now from }
    {
        self.noted.get(&from).copied()
    }

    /// Notes how they end.
    pub fn note(&mut self, from: Spot, end: End) -> Result<(), NoMemory>
        ensures { OnOk result ((p : Spot) → end_of self.new p ≡ cond (is_same from p) (Some end) (end_of self.old p)) }
    {
        self.noted.insert(from, end)?;
        Ok(())
    }
}
