//! The slots in preorder of their fields, each with its home.

ghost use Rattle.std.specs.Prelude.{◌≡◌, ◌<◌, [], map, length, IfOk, IfSome};
ghost use Rattle.acn_homes.specs.Homes as spec;
ghost use Rattle.acn_homes.specs.Joined.{joined};
ghost use Rattle.acn_homes.specs.View.{slots_view, paths_view, slot_fields};

use crate::fields::fields;
use crate::paths::{above, shared};
use crate::uses::Use;
use acn_num::{NoMemory, Row};
use std::alloc::Global;

/// A slot: a determinant's number, by the paths of its field and of the SEQUENCE in which it is decided.
#[derive(Clone, Copy)]
pub struct Slot<'p> {
    /// The field that says the number.
    pub field: &'p [usize],
    /// The smallest SEQUENCE round the field and all its users.
    pub home: &'p [usize],
}

// The slots of these fields, where no node uses one.
fn unused<'p>(alloc: Global, fields: &[&'p [usize]]) -> Result<Vec<Slot<'p>>, NoMemory>
    ensures { IfOk result (λ all. slots_view all.items ≡ map (spec.slot_of []) (paths_view fields.now)) }
{
    let mut all = Vec::with_capacity(alloc, fields.len())?;
    for field in fields {
        let path = *field;
        all.push(Slot {
            field: path,
            home: above(path),
        })?;
    }
    Ok(all)
}

/// The place of the slot whose field has this path. It takes no memory.
pub fn place(slots: &[Slot<'_>], path: &[usize]) -> Option<usize>
    requires { spec.Rises (slot_fields (slots_view slots.now)) }
    ensures value { result ≡ spec.number (slots_view slots.now) path.now }
    ensures within { IfSome result (λ at. at < length slots.now) }
{
    slots.binary_search_by_key(&path, |slot| slot.field).ok()
}

// Widens the home of the slot that is used to one round its user.
fn join(slots: &mut [Slot<'_>], one: &Use)
    requires { spec.Rises (slot_fields (slots_view slots.old)) }
    ensures len { length slots.new ≡ length slots.old }
    ensures value { slots_view slots.new ≡ map (joined one.now.field (spec.above one.now.user)) (slots_view slots.old) }
{
    match place(slots, one.field.items()) {
        None => {}
        Some(at) => {
            let slot = slots[at];
            slots[at] = Slot {
                field: slot.field,
                home: shared(slot.home, above(one.user.items())),
            };
        }
    }
}

// The slots of these fields with their homes.
fn with_homes<'p>(
    alloc: Global,
    fields: &[&'p [usize]],
    uses: &[Use],
) -> Result<Vec<Slot<'p>>, NoMemory>
    requires { spec.Rises (paths_view fields.now) }
    ensures { IfOk result (λ all. slots_view all.items ≡ map (spec.slot_of uses.now) (paths_view fields.now)) }
{
    let mut all = unused(alloc, fields)?;
    for one in uses {
        join(all.as_mut_slice(), one);
    }
    Ok(all)
}

/// The slots, in the order of their numbers.
pub fn slots<'p>(
    alloc: Global,
    inserted: &'p [Row<usize>],
    uses: &'p [Use],
) -> Result<Vec<Slot<'p>>, NoMemory>
    ensures { IfOk result (λ all. slots_view all.items ≡ spec.slots inserted.now uses.now) }
{
    let fields = fields(alloc, inserted, uses)?;
    with_homes(alloc, fields.as_slice(), uses)
}
