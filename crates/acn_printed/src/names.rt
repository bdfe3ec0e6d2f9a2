//! Names that are looked for by halves. What is answered here is a hint, of which no clause speaks:
//! who asks compares the name of the one that was found.

use acn_grammar::Alternative;
use acn_num::{Name, NoMemory, Row};
use std::alloc::Global;
use std::collections::BTreeMap;

/// Among so few a walk over all is as fast.
const FEW_NAMES: usize = 8;

/// What has a name.
pub trait HasName {
    /// The name.
    fn name(&self) -> &[u8];
}

impl HasName for (Name, i128) {
    fn name(&self) -> &[u8] {
        self.0.bytes()
    }
}

impl HasName for Alternative {
    fn name(&self) -> &[u8] {
        self.name.bytes()
    }
}

// The numbers of all by their names. A number beyond 32 bits is left out.
fn numbers_by_name<'a, T: HasName>(
    alloc: Global,
    all: &'a [T],
) -> Result<BTreeMap<&'a [u8], u32>, NoMemory> {
    let mut known = BTreeMap::new(alloc);
    for (at, one) in all.iter().enumerate() {
        if let Ok(number) = u32::try_from(at) {
            known.insert(one.name(), number)?;
        }
    }
    Ok(known)
}

/// The numbers of all, in byte order of their names; none where they are few. It fails only where
/// memory runs out.
pub fn in_order_of_names<T: HasName>(alloc: Global, all: &[T]) -> Result<Row<u32>, NoMemory> {
    let mut numbers = Row::new(alloc);
    if all.len() <= FEW_NAMES {
        return Ok(numbers);
    }
    let known = numbers_by_name(alloc, all)?;
    for (_name, number) in known.iter() {
        numbers.push(*number)?;
    }
    Ok(numbers)
}

// The name of the one of a number.
fn name_of<T: HasName>(all: &[T], number: u32) -> &[u8] {
    match all.get(number as usize) {
        Some(one) => one.name(),
        None => b"",
    }
}

/// The number of the one that has this name, if there is one. It is looked for by halves among these
/// numbers, which stand in byte order of the names: it is the first one whose name isn't less.
pub fn number_by_halves<T: HasName>(all: &[T], numbers: &[u32], name: &[u8]) -> Option<usize> {
    let mut low = 0;
    let mut high = numbers.len();
    while low < high {
        let middle = low + (high - low) / 2;
        if name_of(all, numbers[middle]) < name {
            low = middle + 1;
        } else {
            high = middle;
        }
    }
    let number = numbers.get(low)?;
    Some(*number as usize)
}
