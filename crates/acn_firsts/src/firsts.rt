ghost use Rattle.std.specs.Prelude.{◌≡◌, ℕ, List, [], OnOk, OnErr};
ghost use Rattle.acn_firsts.specs.Placed.{place_of, noted, noted_all, noted_at};

use acn_num::{Name, NoMemory};
use indexmap::IndexMap;
use std::alloc::Global;
use std::marker::Model;

/// Names with the place where each appears first, which contracts see as a list of names and places.
#[derive(Drop)]
pub struct Firsts {
    places: IndexMap<Vec<u8>, usize>,
}

impl Model for Firsts {
    ghost use Rattle.std.specs.Prelude.{List, ℕ, map};

    ghost Value = { List (List ℕ × ℕ) };

    ghost view = { λ firsts. map (λ e. (e.0.items, e.1)) firsts.places.entries };
}

impl Firsts {
    /// No names. It takes no memory.
    pub fn new(alloc: Global) -> Firsts
        ensures { result ≡ [] }
    {
        Firsts {
            places: IndexMap::new(alloc),
        }
    }

    /// The place of a name: where names were noted in turn, the first at which it was noted. It takes no memory.
    pub fn get(&self, name: &[u8]) -> Option<usize>
        ensures value { result ≡ place_of name.now self.now }
        ensures first { (all : List (List ℕ × ℕ)) → self.now ≡ noted_all [] all → result ≡ place_of name.now all }
    {
        self.places.get(name).copied()
    }

    /// Notes a name at a place, unless it has appeared before. Where memory fails nothing is noted.
    pub fn note(&mut self, alloc: Global, name: &[u8], place: usize) -> Result<(), NoMemory>
        ensures ok { OnOk result (self.new ≡ noted self.old name.now place) }
        ensures err { OnErr result (self.new ≡ self.old) }
    {
        if self.places.contains_key(name) {
            return Ok(());
        }
        let name = Vec::from_slice(alloc, name)?;
        self.places.insert(name, place)?;
        Ok(())
    }

    /// Notes several names at a place.
    #[tactic(auto, unfolding(crate::specs::Placed::noted_all))]
    pub fn note_all(&mut self, alloc: Global, names: &[Name], place: usize) -> Result<(), NoMemory>
        ensures { OnOk result (self.new ≡ noted_at self.old names.now place) }
    {
        for name in names {
            self.note(alloc, name.bytes(), place)?;
        }
        Ok(())
    }
}
