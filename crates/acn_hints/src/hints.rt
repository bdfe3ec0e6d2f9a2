//! Whether a name is among those of a list. Lists that were gone along leave hints where each of their names stands, so that each
//! long list is gone along once for all names that are found in it, whatever type leads to it. Only time rests on the hints.

ghost use Rattle.std.specs.Prelude.{◌≡◌, true, option_map, option_copied, slice_get, IfOk};
ghost use Rattle.std.specs.Str.{bytes_eq};
ghost use Rattle.acn_hints.specs.Among.{is_named};

use acn_asn_syntax::{Item, Named};
use acn_num::NoMemory;
use indexmap::IndexMap;
use std::alloc::Global;

/// So few names are gone along each time.
const FEW: usize = 64;

/// What has a name.
pub trait HasName {
    ghost use Rattle.acn_num.specs.Names.{Name};

    /// The name.
    ghost name_of: { Self → Name };

    /// The name.
    fn name(&self) -> &[u8]
        ensures { result.now ≡ name_of self.now };
}

impl HasName for Named {
    ghost name_of = { λ n. n.name };

    fn name(&self) -> &[u8] {
        self.name.bytes()
    }
}

impl HasName for Item {
    ghost name_of = { λ n. n.name };

    fn name(&self) -> &[u8] {
        self.name.bytes()
    }
}

// Whether two names are the same.
fn same(a: &[u8], b: &[u8]) -> bool
    ensures { result ≡ bytes_eq a.now b.now }
{
    a == b
}

// The name of the one at a place.
fn name_at<T: HasName>(all: &[T], at: usize) -> Option<&[u8]>
    ensures { option_copied result ≡ option_map T.name_of (slice_get all.now at) }
{
    let one = all.get(at)?;
    Some(one.name())
}

// Whether the one at a place has this name.
fn is_at<T: HasName>(name: &[u8], all: &[T], at: usize) -> bool
    ensures { result ≡ true → is_named T.name_of name.now all.now ≡ true }
{
    match name_at(all, at) {
        None => false,
        Some(own) => same(name, own),
    }
}

// Whether the one at one of these places has this name.
fn is_at_one_of<T: HasName>(name: &[u8], all: &[T], places: &[usize]) -> bool
    ensures { result ≡ true → is_named T.name_of name.now all.now ≡ true }
{
    for at in places {
        if is_at(name, all, *at) {
            return true;
        }
    }
    false
}

// Whether one of them has this name, by going along the list.
fn is_along<T: HasName>(name: &[u8], all: &[T]) -> bool
    ensures { result ≡ is_named T.name_of name.now all.now }
{
    for one in all {
        if same(name, one.name()) {
            return true;
        }
    }
    false
}

/// Places at which names stand in lists.
#[derive(Drop)]
pub struct Hints {
    alloc: Global,
    places: IndexMap<Vec<u8>, Vec<usize>>,
}

impl Hints {
    /// No hints. It takes no memory.
    pub fn new(alloc: Global) -> Hints {
        Hints {
            alloc,
            places: IndexMap::new(alloc),
        }
    }

    // Whether a hint leads to the name in this list.
    fn leads<T: HasName>(&self, name: &[u8], all: &[T]) -> bool
        ensures { result ≡ true → is_named T.name_of name.now all.now ≡ true }
    {
        match self.places.get(name) {
            None => false,
            Some(places) => is_at_one_of(name, all, places.as_slice()),
        }
    }

    // Notes a place of a name.
    fn note(&mut self, name: &[u8], at: usize) -> Result<(), NoMemory> {
        match self.places.get_mut(name) {
            Some(places) => {
                places.push(at)?;
                Ok(())
            }
            None => self.note_first(name, at),
        }
    }

    // Notes the first place of a name.
    fn note_first(&mut self, name: &[u8], at: usize) -> Result<(), NoMemory> {
        let mut places = Vec::new(self.alloc);
        places.push(at)?;
        let name = Vec::from_slice(self.alloc, name)?;
        self.places.insert(name, places)?;
        Ok(())
    }

    // Notes where the names of a list stand, but for those to which a hint leads.
    fn note_all<T: HasName>(&mut self, all: &[T]) -> Result<(), NoMemory> {
        for (at, one) in all.iter().enumerate() {
            if !self.leads(one.name(), all) {
                self.note(one.name(), at)?;
            }
        }
        Ok(())
    }

    /// Whether one of them has this name. Where it has and no hint led to it, the names of the list leave hints.
    pub fn is_among<T: HasName>(&mut self, name: &[u8], all: &[T]) -> Result<bool, NoMemory>
        ensures { IfOk result (λ found. found ≡ is_named T.name_of name.now all.now) }
    {
        if all.len() <= FEW {
            return Ok(is_along(name, all));
        }
        if self.leads(name, all) {
            return Ok(true);
        }
        let found = is_along(name, all);
        if found {
            self.note_all(all)?;
        }
        Ok(found)
    }
}
