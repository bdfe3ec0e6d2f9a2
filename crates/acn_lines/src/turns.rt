//! The components of a SEQUENCE in byte order of their names.

ghost use Rattle.std.specs.Prelude.{◌≡◌, IfOk};
ghost use Rattle.acn_grammar.specs.View.{fields_view};
ghost use Rattle.acn_lines.specs.Names.{Differ};
ghost use Rattle.acn_lines.specs.Order as spec;
ghost use Rattle.acn_lines.specs.Spots as spots;

use crate::keys::{ShortKey, short_of};
use acn_grammar::Field;
use acn_json::put_key;
use acn_num::{NoMemory, Row};
use std::alloc::Global;
use std::collections::BTreeMap;

/// A member of an object: the number of its field, that of its place in the value, and the text of its key with the colon,
/// which is kept as a short key too where it has room.
#[derive(Drop)]
pub struct Turn {
    pub field: usize,
    pub place: usize,
    pub key: Row<u8>,
    pub short: Option<ShortKey>,
}

/// Where a component stands: the number of its field and that of its place.
#[derive(Clone, Copy)]
pub struct Spot {
    pub field: usize,
    pub place: usize,
}

// The components by their names.
fn spots_of<'a>(alloc: Global, fields: &'a [Field]) -> Result<BTreeMap<&'a [u8], Spot>, NoMemory>
    requires { Differ (fields_view fields.now) }
    ensures { IfOk result (λ known. spots.AreSpots (fields_view fields.now) known.entries) }
{
    let mut known = BTreeMap::new(alloc);
    let mut at = 0;
    for (k, field) in fields.iter().enumerate() {
        match field {
            Field::Component { name, .. } => {
                let spot = Spot {
                    field: k,
                    place: at,
                };
                known.insert(name.bytes(), spot)?;
                at += 1;
            }
            Field::Inserted { .. } => {}
        }
    }
    Ok(known)
}

fn turn_of(alloc: Global, name: &[u8], spot: &Spot) -> Result<Turn, NoMemory>
    ensures { IfOk result (λ turn. turn ≡ spots.turn_at name.now spot.now) }
{
    let mut key = Vec::new(alloc);
    put_key(name, &mut key)?;
    let short = short_of(key.as_slice());
    Ok(Turn {
        field: spot.field,
        place: spot.place,
        key: Row::from_vec(key),
        short,
    })
}

fn turns_at(alloc: Global, known: &BTreeMap<&[u8], Spot>) -> Result<Row<Turn>, NoMemory>
    ensures { IfOk result (λ turns. turns ≡ spots.turns_at known.now.entries) }
{
    let mut turns = Row::new(alloc);
    for (name, spot) in known.iter() {
        turns.push(turn_of(alloc, name, spot)?)?;
    }
    Ok(turns)
}

/// The turns of the components, in byte order of their names. It fails only where memory runs out.
pub fn turns_of(alloc: Global, fields: &[Field]) -> Result<Row<Turn>, NoMemory>
    requires { Differ (fields_view fields.now) }
    ensures { IfOk result (λ turns. spec.AreTurns (fields_view fields.now) turns) }
{
    let known = spots_of(alloc, fields)?;
    turns_at(alloc, &known)
}
