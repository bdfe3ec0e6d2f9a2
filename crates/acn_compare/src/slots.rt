//! Which slots of two trees answer to each other: those whose fields stand at the same place.

ghost use Rattle.std.specs.Prelude.{◌≡◌, ℕ, ◌<◌, length, map, unwrap_or, slice_get, None, Some, OnOk, IfOk};
ghost use Rattle.acn_compare.specs.Accepts.{answering, slot_pair};
ghost use Rattle.acn_compare.specs.Judging.{place_of, last_of};
ghost use Rattle.acn_compare.specs.Tests as spec;

use crate::places::Place;
use acn_num::NoMemory;
use std::alloc::Global;

/// Whether a slot of the newer tree answers to one of the older.
pub fn answers(slots: &[Option<u32>], old: u32, new: u32) -> bool
    ensures { result ≡ spec.answer slots.now old new }
{
    match slots.get(old as usize) {
        Some(found) => match found {
            Some(slot) => *slot == new,
            None => false,
        },
        None => false,
    }
}

// Makes room for a slot.
fn reach(slots: &mut Vec<Option<u32>>, slot: u32) -> Result<(), NoMemory>
    ensures long { OnOk result (slot < length slots.new.items) }
    ensures same { OnOk result ((s : ℕ) → unwrap_or (slice_get slots.new.items s) None ≡ unwrap_or (slice_get slots.old.items s) None) }
{
    while slots.len() <= slot as usize {
        slots.push(None)?;
    }
    Ok(())
}

// Notes that two slots answer to each other.
fn note(slots: &mut Vec<Option<u32>>, old: u32, new: u32) -> Result<(), NoMemory>
    ensures { OnOk result ((s : ℕ) → unwrap_or (slice_get slots.new.items s) None ≡ last_of (slot_pair (Some old) (Some new)) s (unwrap_or (slice_get slots.old.items s) None)) }
{
    reach(slots, old)?;
    slots[old as usize] = Some(new);
    Ok(())
}

fn note_place(slots: &mut Vec<Option<u32>>, place: &Place<'_>) -> Result<(), NoMemory>
    ensures { OnOk result ((s : ℕ) → unwrap_or (slice_get slots.new.items s) None ≡ last_of (slot_pair place.now.old_slot place.now.new_slot) s (unwrap_or (slice_get slots.old.items s) None)) }
{
    match place.old_slot {
        Some(old) => match place.new_slot {
            Some(new) => note(slots, old, new),
            None => Ok(()),
        },
        None => Ok(()),
    }
}

/// By its number, the slot of the newer tree that answers to each one of the older, where one does. A slot of the older tree has one field,
/// so there is one such slot at most.
pub fn answering_slots(alloc: Global, places: &[Place<'_>]) -> Result<Vec<Option<u32>>, NoMemory>
    ensures { IfOk result (λ slots. (s : ℕ) → unwrap_or (slice_get slots.items s) None ≡ last_of (answering (map place_of places.now)) s None) }
{
    let mut slots = Vec::new(alloc);
    for place in places {
        note_place(&mut slots, place)?;
    }
    Ok(slots)
}
