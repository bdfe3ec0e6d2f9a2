//! What a world answers about names, in words.

ghost use Rattle.std.specs.List.{All};
ghost use Rattle.acn_world.specs.Viewed.{world_view};
ghost use Rattle.acn_index.specs.World.{IsType};

use crate::names::push_full_name;
use acn_asn_syntax::Constraint;
use acn_case_lines::{small, word};
use acn_case_sheets::Trouble;
use acn_source_printer::{base_in_words, constraint_in_words, value_in_words};
use acn_world::{Chain, EntryAt, TypeId, World};
use std::alloc::Global;

// The names of types, each behind that of its module.
fn push_types(world: &World, types: &[TypeId], words: &mut Vec<u8>) -> Result<(), Trouble>
    requires { All (IsType (world_view world.now)) types.now }
{
    for place in types {
        let (owner, own) = world.name_of(*place);
        push_full_name(owner, own, words)?;
    }
    Ok(())
}

/// The roots by name.
pub fn roots_told(alloc: Global, world: &World) -> Result<String, Trouble> {
    let mut words = Vec::new(alloc);
    push_types(world, world.roots(alloc)?.as_slice(), &mut words)?;
    if words.is_empty() {
        return Ok("no roots".to_string(alloc)?);
    }
    let all = String::from_utf8_lossy(alloc, words.as_slice())?;
    Ok(all.as_str().trim().to_string(alloc)?)
}

// The numbers of a place, its names, and how many constraints stand on its type.
fn place_in_words(alloc: Global, world: &World, place: TypeId) -> Result<String, Trouble>
    requires { IsType (world_view world.now) place }
{
    let constraints = world.type_at(place).constraints.items().len();
    let (owner, own) = world.name_of(place);
    let owner = String::from_utf8_lossy(alloc, owner.bytes())?;
    let own = String::from_utf8_lossy(alloc, own.bytes())?;
    Ok(format!(in alloc;
        "{}.{} {owner}.{own} {constraints}",
        place.module, place.item
    )?)
}

/// The place of the type with the second word's name in the module with the first word's name.
pub fn find_told(alloc: Global, world: &World, words: &[&str]) -> Result<String, Trouble> {
    match world.find(word(words, 0).as_bytes(), word(words, 1).as_bytes()) {
        Some(place) => place_in_words(alloc, world, place),
        None => Err(Trouble::Absent),
    }
}

/// The place to which the second word leads in the module with the first word's number.
pub fn lookup_told(alloc: Global, world: &World, words: &[&str]) -> Result<String, Trouble> {
    match world.lookup(small(words, 0), word(words, 1).as_bytes()) {
        Some(place) => place_in_words(alloc, world, place),
        None => Err(Trouble::Absent),
    }
}

/// The value to which the second word leads in the module with the first word's number: the number of its own module, the
/// value, and how many constraints stand on its type.
pub fn value_told(alloc: Global, world: &World, words: &[&str]) -> Result<String, Trouble> {
    match world.value(small(words, 0), word(words, 1).as_bytes()) {
        Some((owner, of, value)) => {
            let constraints = of.constraints.items().len();
            let text = value_in_words(alloc, value)?;
            let text = String::from_utf8_lossy(alloc, text.as_slice())?;
            Ok(format!(in alloc; "{owner}{text} {constraints}")?)
        }
        None => Err(Trouble::Absent),
    }
}

/// The entry of the type at the place with these numbers, with its place in the text.
pub fn entry_told(alloc: Global, world: &World, words: &[&str]) -> Result<String, Trouble> {
    let place = TypeId {
        module: small(words, 0),
        item: small(words, 1),
    };
    match world.entry_at(place) {
        Some(entry) => entry_in_words(alloc, &entry),
        None => Err(Trouble::Absent),
    }
}

// The name of an entry, the number of its ACN module and its own number there.
fn entry_in_words(alloc: Global, entry: &EntryAt<'_>) -> Result<String, Trouble> {
    let name = String::from_utf8_lossy(alloc, entry.is.name.bytes())?;
    Ok(format!(in alloc; "{name} at {} {}", entry.acn, entry.entry)?)
}

/// How many lines the table with the first word's name has.
pub fn table_told(alloc: Global, world: &World, words: &[&str]) -> Result<String, Trouble> {
    match world.table(word(words, 0).as_bytes()) {
        Some(table) => Ok(format!(in alloc; "{}", table.lines.items().len())?),
        None => Err(Trouble::Absent),
    }
}

fn push_constraints(
    alloc: Global,
    constraints: &[(u32, &Constraint)],
    words: &mut String,
) -> Result<(), Trouble> {
    for (module, constraint) in constraints {
        let text = constraint_in_words(alloc, *constraint)?;
        let text = String::from_utf8_lossy(alloc, text.as_slice())?;
        write!(words, ", {module}{text}")?;
    }
    Ok(())
}

fn push_entries(alloc: Global, entries: &[EntryAt<'_>], words: &mut String) -> Result<(), Trouble> {
    for entry in entries {
        let text = entry_in_words(alloc, entry)?;
        write!(words, ", {} {text}", entry.module)?;
    }
    Ok(())
}

/// The base of a chain, its constraints and its entries, each behind the number of its module.
pub fn chain_told(alloc: Global, chain: &Chain<'_>) -> Result<String, Trouble> {
    let base = base_in_words(alloc, chain.base)?;
    let base = String::from_utf8_lossy(alloc, base.as_slice())?;
    let mut words = format!(in alloc; "{}{base}", chain.module)?;
    push_constraints(alloc, chain.constraints.items(), &mut words)?;
    push_entries(alloc, chain.entries.items(), &mut words)?;
    Ok(words)
}
