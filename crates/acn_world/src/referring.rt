ghost use Rattle.std.specs.Prelude.{◌≡◌, ◌++◌, map, not, filter, flat_map, filter_map, option_to_list, option_map, OnOk, Option};
ghost use Rattle.acn_asn_syntax.specs.View.{type_view};
ghost use Rattle.acn_acn_syntax.specs.View.{entry_of};
ghost use Rattle.acn_index.specs.Views.{index_view};
ghost use Rattle.acn_mentions.specs.Mentioned.{mention_view, mentions_view};
ghost use Rattle.acn_mentions.specs.AcnMentioned.{acn_mention_view, acn_mentions_view};
ghost use Rattle.acn_index.specs.World as world;
ghost use Rattle.acn_index.specs.Lookup as lookup;
ghost use Rattle.acn_mentions.specs.Mentions as spec;
ghost use Rattle.acn_world.specs.Cycles as cycles;
ghost use Rattle.acn_world.specs.Faults as faults;

use crate::entries::entry_at;
use acn_index::TypeId;
use acn_index::index::Index;
use acn_index::references::{type_at, type_named};
use acn_mentions::{AcnMention, Mention, push_entry, push_type};
use acn_num::NoMemory;
use std::alloc::Global;

/// Whether the two places are the same.
pub fn is_same(a: TypeId, b: TypeId) -> bool
    ensures { result ≡ world.is_same a b }
{
    a.module == b.module && a.item == b.item
}

// Adds the place, where there is one.
fn push_target(target: Option<TypeId>, all: &mut Vec<TypeId>) -> Result<(), NoMemory>
    ensures { OnOk result (all.new.items ≡ all.old.items ++ option_to_list target) }
{
    match target {
        None => Ok(()),
        Some(place) => {
            all.push(place)?;
            Ok(())
        }
    }
}

// The type that is mentioned.
fn type_target(index: &Index, k: u32, mention: Mention<'_>) -> Option<TypeId>
    ensures { result ≡ cycles.type_target (index_view index.now) k (mention_view mention.entry) }
{
    match mention {
        Mention::Type { from, name } => type_named(index, k, from, name.bytes()),
        Mention::Constraint { .. } => None,
        Mention::Default { .. } => None,
        Mention::Assignment { .. } => None,
    }
}

/// Adds the types that are mentioned.
pub fn push_type_targets(
    index: &Index,
    k: u32,
    mentions: &[Mention<'_>],
    all: &mut Vec<TypeId>,
) -> Result<(), NoMemory>
    ensures { OnOk result (all.new.items ≡ all.old.items ++ cycles.type_targets (index_view index.now) k (mentions_view mentions.now)) }
{
    for mention in mentions {
        push_target(type_target(index, k, *mention), all)?;
    }
    Ok(())
}

// The type that is mentioned in an ACN entry.
fn entry_target(index: &Index, k: u32, mention: AcnMention<'_>) -> Option<TypeId>
    ensures { result ≡ faults.entry_target (index_view index.now) k (acn_mention_view mention.entry) }
{
    match mention {
        AcnMention::Parameter { name } => type_named(index, k, &None, name.bytes()),
        AcnMention::Field { name } => type_named(index, k, &None, name.bytes()),
        AcnMention::Table { .. } => None,
    }
}

// Adds the types that are mentioned in an ACN entry.
fn push_entry_targets(
    index: &Index,
    k: u32,
    mentions: &[AcnMention<'_>],
    all: &mut Vec<TypeId>,
) -> Result<(), NoMemory>
    ensures { OnOk result (all.new.items ≡ all.old.items ++ filter_map (faults.entry_target (index_view index.now) k) (acn_mentions_view mentions.now)) }
{
    for mention in mentions {
        push_target(entry_target(index, k, *mention), all)?;
    }
    Ok(())
}

// Adds the types that the ACN entry of a type names.
fn push_entry_references(
    alloc: Global,
    index: &Index,
    place: TypeId,
    all: &mut Vec<TypeId>,
) -> Result<(), NoMemory>
    ensures { OnOk result (all.new.items ≡ all.old.items ++ faults.entry_targets (index_view index.now) place.module (lookup.entry_at (index_view index.now) place)) }
{
    match entry_at(index, place) {
        None => Ok(()),
        Some(entry) => {
            let mut mentions = Vec::new(alloc);
            push_entry(entry, &mut mentions)?;
            push_entry_targets(index, place.module, mentions.as_slice(), all)?;
            Ok(())
        }
    }
}

// Adds the types to which a type refers.
fn push_references(
    alloc: Global,
    index: &Index,
    place: TypeId,
    all: &mut Vec<TypeId>,
) -> Result<(), NoMemory>
    ensures { OnOk result (all.new.items ≡ all.old.items ++ faults.refers_from (index_view index.now) place (world.type_at (index_view index.now) place)) }
{
    match type_at(index, place) {
        None => Ok(()),
        Some(of) => {
            let mut mentions = Vec::new(alloc);
            push_type(of, &mut mentions)?;
            push_type_targets(index, place.module, mentions.as_slice(), all)?;
            push_entry_references(alloc, index, place, all)?;
            Ok(())
        }
    }
}

// Adds the places that are others than this.
fn push_others(from: TypeId, places: &[TypeId], all: &mut Vec<TypeId>) -> Result<(), NoMemory>
    ensures { OnOk result (all.new.items ≡ all.old.items ++ filter (λ q. not (world.is_same from q)) places.now) }
{
    for place in places {
        if !is_same(from, *place) {
            all.push(*place)?;
        }
    }
    Ok(())
}

/// Adds the other types to which a type refers: those in its text, and those that its ACN entry names.
#[tactic(auto, unfolding(crate::specs::Faults::refers_to))]
pub fn push_refers_to(
    alloc: Global,
    index: &Index,
    place: TypeId,
    all: &mut Vec<TypeId>,
) -> Result<(), NoMemory>
    ensures { OnOk result (all.new.items ≡ all.old.items ++ faults.refers_to (index_view index.now) place) }
{
    let mut references = Vec::new(alloc);
    push_references(alloc, index, place, &mut references)?;
    push_others(place, references.as_slice(), all)?;
    Ok(())
}

/// Adds the other types to which the types at these places refer.
pub fn push_referred(
    alloc: Global,
    index: &Index,
    places: &[TypeId],
    all: &mut Vec<TypeId>,
) -> Result<(), NoMemory>
    ensures { OnOk result (all.new.items ≡ all.old.items ++ flat_map (faults.refers_to (index_view index.now)) places.now) }
{
    for place in places {
        push_refers_to(alloc, index, *place, all)?;
    }
    Ok(())
}
