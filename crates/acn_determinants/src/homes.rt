ghost use Rattle.std.specs.Prelude.{◌≡◌, ℕ, true, map, IfOk, Option, List, Some};
ghost use Rattle.std.specs.List.{AllByRecursion};
ghost use Rattle.acn_grammar.specs.Asks.{field_steps};
ghost use Rattle.acn_grammar.specs.Grammar.{Grammar};
ghost use Rattle.acn_grammar.specs.Tree.{holds};
ghost use Rattle.acn_grammar.specs.View.{fields_view};
ghost use Rattle.acn_determinants.specs.Determinants.{SequenceIn, IsLeafIn, IsNumber, steps_of, spot_told};
ghost use Rattle.acn_determinants.specs.Spots.{Spot as SpotData, noted_at, spot_of};

use crate::finding::find_fields;
use crate::found::{Found, Spot};
use acn_grammar::{Field, NumLeaf};
use acn_num::{NoMemory, Path, Row};
use std::alloc::Global;

/// The field that says the number of a slot.
#[derive(Drop)]
pub struct Determinant<'t> {
    pub slot: u32,
    /// The steps that lead to the field from the SEQUENCE at which the slot is at home.
    pub steps: Row<u32>,
    /// The leaf that the field is: the slot permits its numbers.
    pub leaf: &'t NumLeaf,
}

// The determinant of a slot whose field was met.
fn told<'t>(alloc: Global, slot: u32, spot: &Spot<'t>) -> Result<Determinant<'t>, NoMemory>
    requires { IsNumber (Some (spot_of spot.now)) }
    ensures { IfOk result (λ d. spot_told d ≡ (slot, Some (spot_of spot.now))) }
{
    match spot.leaf {
        Some(leaf) => {
            let steps = Vec::from_slice(alloc, spot.steps.items())?;
            Ok(Determinant {
                slot,
                steps: Row::from_vec(steps),
                leaf,
            })
        }
        None => unreachable!(),
    }
}

// The determinant of a slot.
fn determinant_of<'t>(
    alloc: Global,
    slot: u32,
    found: &Found<'t>,
) -> Result<Determinant<'t>, NoMemory>
    requires { IsNumber (noted_at found.now slot) }
    ensures { IfOk result (λ d. spot_told d ≡ (slot, noted_at found.now slot)) }
{
    match found.of(slot) {
        Some(spot) => told(alloc, slot, spot),
        None => unreachable!(),
    }
}

// The determinants of these slots.
fn listed<'t>(
    alloc: Global,
    home: &[u32],
    found: &Found<'t>,
) -> Result<Row<Determinant<'t>>, NoMemory>
    requires { (s : ℕ) → holds home.now s ≡ true → IsNumber (noted_at found.now s) }
    ensures { IfOk result (λ all. map spot_told all ≡ map (λ (s : ℕ). (s, noted_at found.now s)) home.now) }
{
    let mut all = Row::new(alloc);
    for slot in home {
        all.push(determinant_of(alloc, *slot, found)?)?;
    }
    Ok(all)
}

/// The determinants of the slots at home in a SEQUENCE, in the order of the slots: its fields are walked once.
pub fn determinants<'t>(
    alloc: Global,
    fields: &'t [Field],
    home: &[u32],
) -> Result<Row<Determinant<'t>>, NoMemory>
    requires { (root : Grammar) × SequenceIn root (fields_view fields.now) home.now }
    ensures steps { IfOk result (λ all. map steps_of all ≡ map (λ (s : ℕ). (s, field_steps (fields_view fields.now) 0 s)) home.now) }
    ensures leaves { IfOk result (λ all. (root : Grammar) → SequenceIn root (fields_view fields.now) home.now → AllByRecursion (IsLeafIn root) all) }
{
    let mut found = Found::new(alloc);
    let mut path = Path::new();
    find_fields(alloc, fields, &mut path, &mut found)?;
    listed(alloc, home, &found)
}
