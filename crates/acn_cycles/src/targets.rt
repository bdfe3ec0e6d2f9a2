ghost use Rattle.std.specs.Prelude.{◌≡◌, ◌++◌, filter_map, OnOk};
ghost use Rattle.acn_asn_syntax.specs.View.{assign_view};
ghost use Rattle.acn_index.specs.Views.{index_view};
ghost use Rattle.acn_mentions.specs.Mentioned.{mention_view, mentions_view};
ghost use Rattle.acn_mentions.specs.Mentions.{value_mentions};
ghost use Rattle.acn_world.specs.Cycles as spec;

use acn_asn_syntax::{AsnValue, Assign};
use acn_index::index::Index;
use acn_index::references::{assignment, type_named, value_named};
use acn_mentions::{Mention, push_type};
use acn_num::NoMemory;
use acn_world::TypeId;
use std::alloc::Global;

// The type that is mentioned.
fn type_target(index: &Index, k: u32, mention: Mention<'_>) -> Option<TypeId>
    ensures { result ≡ spec.type_target (index_view index.now) k (mention_view mention.entry) }
{
    match mention {
        Mention::Type { from, name } => type_named(index, k, from, name.bytes()),
        Mention::Constraint { .. } => None,
        Mention::Default { .. } => None,
        Mention::Assignment { .. } => None,
    }
}

// Adds the types that are mentioned.
fn push_type_targets(
    index: &Index,
    k: u32,
    mentions: &[Mention<'_>],
    all: &mut Vec<TypeId>,
) -> Result<(), NoMemory>
    ensures { OnOk result (all.new.items ≡ all.old.items ++ spec.type_targets (index_view index.now) k (mentions_view mentions.now)) }
{
    for mention in mentions {
        match type_target(index, k, *mention) {
            None => {}
            Some(place) => all.push(place)?,
        }
    }
    Ok(())
}

// Adds the value that a value is.
fn push_value_target(
    index: &Index,
    k: u32,
    value: &AsnValue,
    all: &mut Vec<TypeId>,
) -> Result<(), NoMemory>
    ensures { OnOk result (all.new.items ≡ all.old.items ++ filter_map (spec.value_target (index_view index.now) k) (value_mentions value.now)) }
{
    match value {
        AsnValue::Ref(name) => match value_named(index, k, name.bytes()) {
            None => Ok(()),
            Some(place) => {
                all.push(place)?;
                Ok(())
            }
        },
        AsnValue::Number(_, _) => Ok(()),
        AsnValue::True => Ok(()),
        AsnValue::False => Ok(()),
        AsnValue::Null => Ok(()),
        AsnValue::Bits(_) => Ok(()),
        AsnValue::Hex(_) => Ok(()),
        AsnValue::Text(_) => Ok(()),
    }
}

// Adds those to which an assignment refers.
#[tactic(auto, unfolding(acn_world::specs::Cycles::targets_of))]
fn push_item_targets(
    alloc: Global,
    index: &Index,
    k: u32,
    item: &Assign,
    all: &mut Vec<TypeId>,
) -> Result<(), NoMemory>
    ensures { OnOk result (all.new.items ≡ all.old.items ++ spec.targets_of (index_view index.now) k (assign_view item.now)) }
{
    match item {
        Assign::TypeIs(_, of) => {
            let mut mentions = Vec::new(alloc);
            push_type(of, &mut mentions)?;
            push_type_targets(index, k, mentions.as_slice(), all)
        }
        Assign::ValueIs(_, _, value) => push_value_target(index, k, value, all),
    }
}

/// Adds those to which the assignment at a place refers.
#[tactic(auto, unfolding(acn_world::specs::Cycles::targets))]
pub fn push_targets(
    alloc: Global,
    index: &Index,
    place: TypeId,
    all: &mut Vec<TypeId>,
) -> Result<(), NoMemory>
    ensures { OnOk result (all.new.items ≡ all.old.items ++ spec.targets (index_view index.now) place) }
{
    match assignment(index, place) {
        None => Ok(()),
        Some(item) => push_item_targets(alloc, index, place.module, item, all),
    }
}
