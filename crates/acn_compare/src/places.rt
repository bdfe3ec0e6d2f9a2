//! The nodes that stand at the same places of two trees.

ghost use Rattle.std.specs.Prelude.{◌≡◌, ℕ, suc, ◌++◌, ◌∷◌, [], map, OnOk, IfOk, None, true, false};
ghost use Rattle.acn_compare.specs.Accepts as spec;
ghost use Rattle.acn_compare.specs.Judging.{place_of};
ghost use Rattle.acn_grammar.specs.Grammar.{Fields};
ghost use Rattle.acn_grammar.specs.Paths.{grammar_in};
ghost use Rattle.acn_grammar.specs.View.{grammar_of, form_of, field_of, fields_view, with_field, alternatives_view};
ghost use Rattle.acn_report.specs.Walks.{Walkable, FormWalkable, FieldsWalkable, AlternativesWalkable};

use acn_num::{NoMemory, Path};
use acn_report::with_step;
use acn_tree::{Alternative, Body, Field, Node};

/// Two nodes at the same place of two trees, and the slots whose numbers the fields there say.
#[derive(Drop)]
pub struct Place<'t> {
    pub path: Path,
    pub old_slot: Option<u32>,
    pub new_slot: Option<u32>,
    pub old: &'t Node,
    pub new: &'t Node,
}

fn push_place<'t>(places: &mut Vec<Place<'t>>, place: Place<'t>) -> Result<(), NoMemory>
    ensures { OnOk result (places.new.items ≡ places.old.items ++ place.entry ∷ []) }
{
    places.push(place)?;
    Ok(())
}

/// Adds the place of two nodes and those inside it, in preorder.
#[cycle(places)]
pub fn list_places<'t>(
    old: &'t Node,
    new: &'t Node,
    places: &mut Vec<Place<'t>>,
    old_slot: Option<u32>,
    new_slot: Option<u32>,
    path: &Path,
) -> Result<(), NoMemory>
    requires { Walkable path.now (grammar_of old.now) }
    ensures { OnOk result (map place_of places.new.items ≡ map place_of places.old.items ++ spec.places path.now old_slot new_slot (grammar_of old.now) (grammar_of new.now)) }
{
    let place = Place {
        path: path.copy(),
        old_slot,
        new_slot,
        old,
        new,
    };
    push_place(places, place)?;
    list_bodies(&old.body, &new.body, places, path)
}

#[cycle(places)]
fn list_bodies<'t>(
    old: &'t Body,
    new: &'t Body,
    places: &mut Vec<Place<'t>>,
    path: &Path,
) -> Result<(), NoMemory>
    requires { FormWalkable path.now (form_of old.now) }
    ensures { OnOk result (map place_of places.new.items ≡ map place_of places.old.items ++ spec.form_places path.now (form_of old.now) (form_of new.now)) }
{
    match old {
        Body::Seq(a) => match new {
            Body::Seq(b) => list_fields(a.fields.items(), b.fields.items(), places, path),
            _ => Ok(()),
        },
        Body::List(_, a) => match new {
            Body::List(_, b) => list_inside(a.get(), b.get(), places, path, 0),
            _ => Ok(()),
        },
        Body::Choice(a) => match new {
            Body::Choice(b) => {
                list_cases(a.alternatives.items(), b.alternatives.items(), places, path)
            }
            _ => Ok(()),
        },
        Body::Contained(_, a) => match new {
            Body::Contained(_, b) => list_inside(a.get(), b.get(), places, path, 0),
            _ => Ok(()),
        },
        Body::Num(_) => Ok(()),
        Body::Octets(_) => Ok(()),
        Body::Bits(_) => Ok(()),
        Body::Text(_) => Ok(()),
    }
}

// Nodes that are no fields, one step inside.
#[cycle(places)]
fn list_inside<'t>(
    old: &'t Node,
    new: &'t Node,
    places: &mut Vec<Place<'t>>,
    path: &Path,
    step: u32,
) -> Result<(), NoMemory>
    requires { Walkable (path.now ++ step ∷ []) (grammar_of old.now) }
    ensures { OnOk result (map place_of places.new.items ≡ map place_of places.old.items ++ spec.places (path.now ++ step ∷ []) None None (grammar_of old.now) (grammar_of new.now)) }
{
    let inner = with_step(path, step);
    list_places(old, new, places, None, None, &inner)
}

// Two fields at one place, or false where only one of them is inserted: there no further fields answer to each other.
#[cycle(places)]
fn list_field<'t>(
    old: &'t Field,
    new: &'t Field,
    places: &mut Vec<Place<'t>>,
    path: &Path,
    step: u32,
) -> Result<bool, NoMemory>
    requires { Walkable (path.now ++ step ∷ []) (grammar_in (field_of old.now)) }
    ensures goes { (fs others : Fields) → IfOk result (λ both. both ≡ true → map place_of places.new.items ++ spec.field_places path.now (suc step) fs others ≡ map place_of places.old.items ++ spec.field_places path.now step (with_field (field_of old.now) fs) (with_field (field_of new.now) others)) }
    ensures ends { (fs others : Fields) → IfOk result (λ both. both ≡ false → map place_of places.new.items ≡ map place_of places.old.items ++ spec.field_places path.now step (with_field (field_of old.now) fs) (with_field (field_of new.now) others)) }
{
    let inner = with_step(path, step);
    match old {
        Field::Component { node, slot, .. } => match new {
            Field::Component {
                node: other,
                slot: answer,
                ..
            } => {
                list_places(node, other, places, *slot, *answer, &inner)?;
                Ok(true)
            }
            Field::Inserted { .. } => Ok(false),
        },
        Field::Inserted { node, slot, .. } => match new {
            Field::Inserted {
                node: other,
                slot: answer,
                ..
            } => {
                list_places(node, other, places, *slot, *answer, &inner)?;
                Ok(true)
            }
            Field::Component { .. } => Ok(false),
        },
    }
}

#[cycle(places)]
fn list_fields<'t>(
    old: &'t [Field],
    new: &'t [Field],
    places: &mut Vec<Place<'t>>,
    path: &Path,
) -> Result<(), NoMemory>
    requires { FieldsWalkable path.now 0 (fields_view old.now) }
    ensures { OnOk result (map place_of places.new.items ≡ map place_of places.old.items ++ spec.field_places path.now 0 (fields_view old.now) (fields_view new.now)) }
{
    let mut step = 0;
    for k in 0..old.len() {
        if k >= new.len() {
            return Ok(());
        }
        if !list_field(&old[k], &new[k], places, path, step)? {
            return Ok(());
        }
        step += 1;
    }
    Ok(())
}

#[cycle(places)]
fn list_cases<'t>(
    old: &'t [Alternative],
    new: &'t [Alternative],
    places: &mut Vec<Place<'t>>,
    path: &Path,
) -> Result<(), NoMemory>
    requires { AlternativesWalkable path.now 0 (alternatives_view old.now) }
    ensures { OnOk result (map place_of places.new.items ≡ map place_of places.old.items ++ spec.case_places path.now 0 (alternatives_view old.now) (alternatives_view new.now)) }
{
    let mut step = 0;
    for k in 0..old.len() {
        if k >= new.len() {
            return Ok(());
        }
        list_inside(&old[k].node, &new[k].node, places, path, step)?;
        step += 1;
    }
    Ok(())
}
