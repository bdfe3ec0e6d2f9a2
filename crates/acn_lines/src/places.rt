//! The places of a record that is filled member by member.

ghost use Rattle.std.specs.Prelude.{◌≡◌, ◌<◌, ◌||◌, [], IfSome, IfOk, IsTrue, Some, None, length, drop, set};
ghost use Rattle.acn_grammar.specs.Shaped.{may_be_absent as may_lack};
ghost use Rattle.acn_grammar.specs.View.{field_of, fields_view, places_view, alternatives_view};
ghost use Rattle.acn_lines.specs.Filled.{alternative_name, IsMet};
ghost use Rattle.acn_lines.specs.Taken as taken;

use crate::turns::Turn;
use acn_grammar::{Alternative, Field, Presence, Value};
use acn_json::{is_same, may_be_absent};
use acn_num::NoMemory;
use acn_printed::number_by_halves;

/// A place for each component, with no value in it, in a room that has none yet.
pub fn no_values(room: Vec<Option<Value>>, fields: &[Field]) -> Result<Vec<Option<Value>>, NoMemory>
    requires { room.items ≡ [] }
    ensures empty { IfOk result (λ places. places_view places.items ≡ taken.no_values (fields_view fields.now)) }
    ensures count { IfOk result (λ places. length places.items ≡ taken.component_count (fields_view fields.now)) }
{
    let mut places = room;
    places.reserve(fields.len())?;
    for field in fields {
        match field {
            Field::Component { .. } => places.push(None)?,
            Field::Inserted { .. } => {}
        }
    }
    Ok(places)
}

/// Whether a field is a component that may be absent.
#[inline]
pub fn may_lack(field: &Field) -> bool
    ensures { IsTrue result → IsMet (Some (field_of field.now)) None }
{
    match field {
        Field::Component { presence, .. } => may_be_absent(presence),
        Field::Inserted { .. } => false,
    }
}

// Whether there is a value in the place of this number.
fn is_there(places: &[Option<Value>], at: usize) -> bool
    ensures { result ≡ taken.is_there (places_view (drop at places.now)) }
{
    match places.get(at) {
        Some(place) => place.is_some(),
        None => false,
    }
}

// Whether a value is there, or may be absent.
fn is_met(presence: &Presence, places: &[Option<Value>], at: usize) -> bool
    ensures { result ≡ (taken.is_there (places_view (drop at places.now)) || may_lack presence.now) }
{
    is_there(places, at) || may_be_absent(presence)
}

/// Whether each component that has to be there is there.
pub fn is_whole(fields: &[Field], places: &[Option<Value>]) -> bool
    ensures { result ≡ taken.is_whole (fields_view fields.now) (places_view places.now) }
{
    let mut at = 0;
    for field in fields {
        match field {
            Field::Component { presence, .. } => {
                if is_met(presence, places, at) {
                    at += 1;
                } else {
                    return false;
                }
            }
            Field::Inserted { .. } => {}
        }
    }
    true
}

fn name_in(field: &Field) -> &[u8] {
    match field {
        Field::Component { name, .. } => name.bytes(),
        Field::Inserted { name, .. } => name.bytes(),
    }
}

// The name of the field of a number.
fn name_of(fields: &[Field], at: usize) -> &[u8] {
    match fields.get(at) {
        Some(field) => name_in(field),
        None => b"",
    }
}

// The number of the turn of a name, by halves: turns stand in byte order of their names.
fn found_by_halves(fields: &[Field], turns: &[Turn], name: &[u8]) -> Option<usize>
    ensures { IfSome result (λ at. at < length turns.now) }
{
    let mut low = 0;
    let mut high = turns.len();
    while low < high {
        let middle = low + (high - low) / 2;
        let here = name_of(fields, turns[middle].field);
        if is_same(here, name) {
            return Some(middle);
        }
        if here < name {
            low = middle + 1;
        } else {
            high = middle;
        }
    }
    None
}

/// The number of a turn of this name, if there seems to be one: the turn that is expected, or one that is found by halves.
pub fn turn_named(fields: &[Field], turns: &[Turn], expected: usize, name: &[u8]) -> Option<usize>
    ensures { IfSome result (λ at. at < length turns.now) }
{
    if expected < turns.len() && is_same(name_of(fields, turns[expected].field), name) {
        return Some(expected);
    }
    found_by_halves(fields, turns, name)
}

/// The number of the alternative of a name.
pub fn alternative_named(alternatives: &[Alternative], name: &[u8]) -> Option<usize>
    ensures { result ≡ taken.alternative_number name.now 0 (alternatives_view alternatives.now) }
{
    for (at, alternative) in alternatives.iter().enumerate() {
        if is_same(alternative.name.bytes(), name) {
            return Some(at);
        }
    }
    None
}

/// The number of an alternative of this name, looked for by halves where `names` are the numbers of
/// all in byte order of their names.
pub fn alternative_called(alternatives: &[Alternative], names: &[u32], name: &[u8]) -> Option<usize>
    ensures within { IfSome result (λ at. at < length alternatives.now) }
    ensures named { IfSome result (λ at. alternative_name (alternatives_view alternatives.now) at ≡ name.now) }
{
    if names.is_empty() {
        return alternative_named(alternatives, name);
    }
    let at = number_by_halves(alternatives, names, name)?;
    if at >= alternatives.len() {
        return None;
    }
    if is_same(alternatives[at].name.bytes(), name) {
        Some(at)
    } else {
        None
    }
}
