//! The members of a JSON object beside the components of a SEQUENCE.

ghost use Rattle.std.specs.Prelude.{◌≡◌, ◌<◌, ◌^◌, [], IfOk, length, option_map, option_and_then, string_bytes};
ghost use Rattle.serde_json.specs.Find.{get_member, as_object};
ghost use Rattle.serde_json.specs.View.{view, members_view};
ghost use Rattle.acn_firsts.specs.Placed.{noted_all};
ghost use Rattle.acn_grammar.specs.Grammar.{Fields};
ghost use Rattle.acn_grammar.specs.Shaped.{may_be_absent as may_lack};
ghost use Rattle.acn_grammar.specs.View.{fields_view};
ghost use Rattle.acn_json.specs.Few.{members_size, component_places};
ghost use Rattle.acn_json.specs.Reads as reads;

use crate::strings::is_same;
use acn_firsts::Firsts;
use acn_grammar::{Field, Presence};
use acn_num::NoMemory;
use serde_json::{Map, Value as Json};
use std::alloc::Global;

/// Among so many fields a name is looked for one by one; the names of more are put into a map.
const FEW_FIELDS: usize = 16;

// The same for a name that is no text, which no member has.
fn look<'m>(members: &'m Map<String, Json>, name: &[u8]) -> Option<&'m Json>
    ensures { option_map (λ j. view j.now) result ≡ get_member name.now (members_view members.now.entries) }
{
    for (key, json) in members.iter() {
        if is_same(key.as_bytes(), name) {
            return Some(json);
        }
    }
    None
}

/// The member of a name.
pub fn member<'m>(members: &'m Map<String, Json>, name: &[u8]) -> Option<&'m Json>
    ensures { option_map (λ j. view j.now) result ≡ get_member name.now (members_view members.now.entries) }
{
    match std::str::from_utf8(name) {
        Ok(text) => members.get(text),
        Err(_) => look(members, name),
    }
}

fn has_component(name: &[u8], fields: &[Field]) -> bool
    ensures { result ≡ reads.has_component name.now (fields_view fields.now) }
{
    for field in fields {
        match field {
            Field::Component { name: own, .. } => {
                if is_same(own.bytes(), name) {
                    return true;
                }
            }
            Field::Inserted { .. } => {}
        }
    }
    false
}

// The same of a few fields.
fn first_unlisted(fields: &[Field], members: &Map<String, Json>) -> Option<u32>
    requires { members_size (members_view members.now.entries) < 2 ^ 32 }
    ensures { result ≡ reads.first_unknown (fields_view fields.now) 0 (members_view members.now.entries) }
{
    let mut at = 0u32;
    for (key, _json) in members.iter() {
        if !has_component(key.as_bytes(), fields) {
            return Some(at);
        }
        at += 1;
    }
    None
}

// The names of the components.
#[tactic(auto, unfolding(acn_firsts::specs::Placed::noted_all))]
fn names_of(alloc: Global, fields: &[Field]) -> Result<Firsts, NoMemory>
    ensures { IfOk result (λ names. names ≡ noted_all [] (component_places (fields_view fields.now))) }
{
    let mut names = Firsts::new(alloc);
    for field in fields {
        match field {
            Field::Component { name, .. } => {
                names.note(alloc, name.bytes(), 0)?;
            }
            Field::Inserted { .. } => {}
        }
    }
    Ok(names)
}

fn is_noted(names: &Firsts, name: &[u8]) -> bool
    ensures { (fs : Fields) → names.now ≡ noted_all [] (component_places fs) → result ≡ reads.has_component name.now fs }
{
    names.get(name).is_some()
}

fn first_unnoted(names: &Firsts, members: &Map<String, Json>) -> Option<u32>
    requires { members_size (members_view members.now.entries) < 2 ^ 32 }
    ensures { (fs : Fields) → names.now ≡ noted_all [] (component_places fs) → result ≡ reads.first_unknown fs 0 (members_view members.now.entries) }
{
    let mut at = 0u32;
    for (key, _json) in members.iter() {
        if !is_noted(names, key.as_bytes()) {
            return Some(at);
        }
        at += 1;
    }
    None
}

/// The number of the first member that is no component.
pub fn first_unknown(
    alloc: Global,
    fields: &[Field],
    members: &Map<String, Json>,
) -> Result<Option<u32>, NoMemory>
    requires { members_size (members_view members.now.entries) < 2 ^ 32 }
    ensures { IfOk result (λ at. at ≡ reads.first_unknown (fields_view fields.now) 0 (members_view members.now.entries)) }
{
    if fields.len() <= FEW_FIELDS {
        return Ok(first_unlisted(fields, members));
    }
    let names = names_of(alloc, fields)?;
    Ok(first_unnoted(&names, members))
}

/// Whether a component may be absent.
pub fn may_be_absent(presence: &Presence) -> bool
    ensures { result ≡ may_lack presence.now }
{
    match presence {
        Presence::Always => false,
        Presence::Bit => true,
        Presence::When(_) => true,
    }
}

fn is_missing(presence: &Presence, json: Option<&Json>) -> bool
    ensures { result ≡ reads.if_missing (may_lack presence.now) (option_map (λ j. view j.now) json.entry) }
{
    match json {
        Some(_json) => false,
        None => !may_be_absent(presence),
    }
}

/// The number of the first field that has to be there and isn't.
pub fn first_missing(members: &Map<String, Json>, fields: &[Field]) -> Option<u32>
    requires { length fields.now < 2 ^ 32 }
    ensures { result ≡ reads.first_missing (members_view members.now.entries) 0 (fields_view fields.now) }
{
    let mut step = 0u32;
    for field in fields {
        match field {
            Field::Component { name, presence, .. } => {
                if is_missing(presence, member(members, name.bytes())) {
                    return Some(step);
                }
            }
            Field::Inserted { .. } => {}
        }
        step += 1;
    }
    None
}

/// The only member of an object.
pub fn only_member(json: &Json) -> Option<(&String, &Json)>
    ensures { option_map (λ m. (string_bytes m.0.now, view m.1.now)) result ≡ option_and_then reads.only_member (as_object (view json.now)) }
{
    match json.as_object() {
        Some(members) => {
            if members.len() == 1 {
                members.first_key_value()
            } else {
                None
            }
        }
        None => None,
    }
}
