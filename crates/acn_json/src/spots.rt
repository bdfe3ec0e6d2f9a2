//! The components that are there, in byte order of their names.

ghost use Rattle.std.specs.Prelude.{◌≡◌, ◌<◌, OnOk, IfOk, ℕ, length};
ghost use Rattle.serde_json.specs.Data as json;
ghost use Rattle.serde_json.specs.Data.{no_members};
ghost use Rattle.acn_grammar.specs.View.{fields_view, places_view};
ghost use Rattle.acn_json.specs.Lines.{fields_json};
ghost use Rattle.acn_json.specs.Spots as spots;

use acn_grammar::{Field, Value};
use acn_num::NoMemory;
use std::alloc::Global;
use std::collections::BTreeMap;

/// Where a component stands: the number of its field and that of its place.
#[derive(Clone, Copy)]
pub struct Spot {
    pub field: usize,
    pub place: usize,
}

// One component more, where it is there. Of two with one name the later stays.
fn note<'a>(
    known: &mut BTreeMap<&'a [u8], Spot>,
    name: &'a [u8],
    place: &Option<Value>,
    spot: Spot,
) -> Result<(), NoMemory>
    ensures members { OnOk result ((value : Spot → json.Data) → spots.members_at value known.new.entries ≡ spots.put_there place.now name.now (value spot) (spots.members_at value known.old.entries)) }
    ensures within { OnOk result ((m n : ℕ) → spot.field < m → spot.place < n → spots.AreWithin m n known.old.entries → spots.AreWithin m n known.new.entries) }
{
    match place {
        Some(_value) => {
            known.insert(name, spot)?;
            Ok(())
        }
        None => Ok(()),
    }
}

/// The components that are there, by their names.
pub fn spots_of<'a>(
    alloc: Global,
    fields: &'a [Field],
    places: &[Option<Value>],
) -> Result<BTreeMap<&'a [u8], Spot>, NoMemory>
    ensures members { IfOk result (λ known. spots.members_at (spots.json_at fields.now places.now) known.entries ≡ fields_json no_members (fields_view fields.now) (places_view places.now)) }
    ensures within { IfOk result (λ known. spots.AreWithin (length fields.now) (length places.now) known.entries) }
{
    let mut known = BTreeMap::new(alloc);
    let mut at = 0;
    for (k, field) in fields.iter().enumerate() {
        match field {
            Field::Component { name, .. } => {
                if at == places.len() {
                    return Ok(known);
                }
                let spot = Spot {
                    field: k,
                    place: at,
                };
                note(&mut known, name.bytes(), &places[at], spot)?;
                at += 1;
            }
            Field::Inserted { .. } => {}
        }
    }
    Ok(known)
}
