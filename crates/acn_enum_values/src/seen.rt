//! Names by their numbers.

ghost use Rattle.std.specs.Prelude.{◌≡◌, ◌++◌, ◌∷◌, [], None, OnOk, option_copied};
ghost use Rattle.acn_enum_values.specs.EnumValues as spec;

use acn_num::{Name, NoMemory};
use indexmap::IndexMap;
use std::alloc::Global;
use std::marker::Model;

/// Names with numbers that differ, in turn, with a map of the numbers.
#[derive(Drop)]
pub struct Seen<'w> {
    names: IndexMap<i128, &'w Name>,
}

impl<'w> Model for Seen<'w> {
    ghost use Rattle.std.specs.Prelude.{List, map};
    ghost use Rattle.acn_written.specs.Items.{Numbered};
    ghost use Rattle.acn_enum_values.specs.Keyed.{keyed_view};

    ghost Value = { List Numbered };

    ghost view = { λ seen. map keyed_view seen.names.entries };
}

impl<'w> Seen<'w> {
    /// No names. It takes no memory.
    pub fn new(alloc: Global) -> Seen<'w>
        ensures { result ≡ [] }
    {
        Seen {
            names: IndexMap::new(alloc),
        }
    }

    /// The name of the first of them with a number. It takes no memory.
    pub fn with_number(&self, number: i128) -> Option<&'w Name>
        ensures { option_copied result ≡ spec.with_number self.now number }
    {
        match self.names.get(&number) {
            Some(name) => Some(*name),
            None => None,
        }
    }

    /// Adds a name with a number that none has.
    pub fn add(&mut self, name: &'w Name, number: i128) -> Result<(), NoMemory>
        requires { spec.with_number self.old number ≡ None }
        ensures { OnOk result (self.new ≡ self.old ++ (name.now, number) ∷ []) }
    {
        self.names.insert(number, name)?;
        Ok(())
    }
}
