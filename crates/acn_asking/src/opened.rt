//! The slots that are at home round the place where the walk stands.

ghost use Rattle.std.specs.Prelude.{◌≡◌, ℕ, ◌++◌, ◌∷◌, [], map, true, OnOk, IfOk, Some};
ghost use Rattle.acn_grammar.specs.Asks.{field_of, field_path};
ghost use Rattle.acn_grammar.specs.Grammar.{Grammar};
ghost use Rattle.acn_grammar.specs.Slots.{slot_leaf};
ghost use Rattle.acn_grammar.specs.Tree.{holds};
ghost use Rattle.acn_grammar.specs.View.{fields_view};
ghost use Rattle.acn_determinants.specs.Determinants.{SequenceIn, IsLeafIn};
ghost use Rattle.std.specs.List.{AllByRecursion};
ghost use Rattle.acn_asking.specs.Gathered.{paths_of, slots_of, LeavesIn, Opened, at_path};

use acn_determinants::{Determinant, determinants};
use acn_grammar::{Field, NumLeaf};
use acn_num::{NoMemory, Path, Row};
use std::alloc::Global;

/// A slot that is at home round the place.
#[derive(Drop)]
pub struct Open<'t> {
    pub slot: u32,
    /// Where the field that says its number is in the packet.
    pub field: Row<u32>,
    /// The leaf that the field is.
    pub leaf: &'t NumLeaf,
}

/// The slot of this number, that of the nearest SEQUENCE.
pub fn open_slot<'o, 't>(slots: &'o [Open<'t>], slot: u32) -> &'o Open<'t>
    requires { holds (slots_of slots.now) slot ≡ true }
    ensures slot { result.now.slot ≡ slot }
    ensures field { result.now.field ≡ field_of (paths_of slots.now) slot }
    ensures leaf { (root : Grammar) → LeavesIn root slots.now → slot_leaf root slot ≡ Some result.now.leaf.now }
{
    for k in 0..slots.len() {
        let here = &slots[slots.len() - 1 - k];
        if here.slot == slot {
            return here;
        }
    }
    unreachable!()
}

// These steps behind those.
fn joined(alloc: Global, front: &[u32], behind: &[u32]) -> Result<Row<u32>, NoMemory>
    ensures { IfOk result (λ all. all ≡ front.now ++ behind.now) }
{
    let mut all = Row::new(alloc);
    for step in front {
        all.push(*step)?;
    }
    for step in behind {
        all.push(*step)?;
    }
    Ok(all)
}

// Opens the slot of a determinant, in the SEQUENCE at the path.
fn open_one<'t>(
    alloc: Global,
    path: &Path,
    det: &Determinant<'t>,
    slots: &mut Vec<Open<'t>>,
) -> Result<(), NoMemory>
    ensures { OnOk result (Opened (at_path path.now det.now ∷ []) (λ root. IsLeafIn root det.now) slots.old.items slots.new.items) }
{
    slots.push(Open {
        slot: det.slot,
        field: joined(alloc, path.steps(), det.steps.items())?,
        leaf: det.leaf,
    })?;
    Ok(())
}

// Opens the slots of determinants, from the last to the first.
fn open_all<'t>(
    alloc: Global,
    path: &Path,
    dets: &[Determinant<'t>],
    slots: &mut Vec<Open<'t>>,
) -> Result<(), NoMemory>
    ensures { OnOk result (Opened (map (at_path path.now) dets.now) (λ root. AllByRecursion (IsLeafIn root) dets.now) slots.old.items slots.new.items) }
{
    for k in 0..dets.len() {
        open_one(alloc, path, &dets[dets.len() - 1 - k], slots)?;
    }
    Ok(())
}

/// Opens the slots at home in the SEQUENCE at the path.
pub fn open_home<'t>(
    alloc: Global,
    fields: &'t [Field],
    home: &[u32],
    path: &Path,
    slots: &mut Vec<Open<'t>>,
) -> Result<(), NoMemory>
    requires { (root : Grammar) × SequenceIn root (fields_view fields.now) home.now }
    ensures { OnOk result (Opened (map (λ (s : ℕ). (s, field_path path.now (fields_view fields.now) s)) home.now) (λ root. SequenceIn root (fields_view fields.now) home.now) slots.old.items slots.new.items) }
{
    if home.is_empty() {
        return Ok(());
    }
    let dets = determinants(alloc, fields, home)?;
    open_all(alloc, path, dets.items(), slots)
}
