ghost use Rattle.std.specs.Prelude.{◌≡◌, [], ◌∷◌, ◌++◌, not, is_some, map, flat_map, OnOk, IfOk};
ghost use Rattle.acn_acn_syntax.specs.View.{entry_of, module_of};
ghost use Rattle.acn_index.specs.Views.{index_view};
ghost use Rattle.acn_mentions.specs.AcnMentioned.{acn_mention_view, acn_mentions_view};
ghost use Rattle.acn_world.specs.Unknown as spec;
ghost use Rattle.acn_world.specs.Repeated.{when};
ghost use Rattle.acn_index.specs.Lookup.{type_in};
ghost use Rattle.acn_repeated.specs.Named.{names_view};
ghost use Rattle.acn_repeated.specs.Blamed.{blames_view};

use acn_acn_syntax::{AcnEntry, AcnModule};
use acn_index::index::Index;
use acn_index::lookup::module_named;
use acn_index::references::{table_named, type_in, type_named};
use acn_mentions::{AcnMention, push_entry};
use acn_num::{Name, NoMemory};
use acn_repeated::{Blame, Kind, push_blames};
use acn_world::TypeId;
use std::alloc::Global;

/// The type to which a reference in the ACN module with a name leads.
#[tactic(auto, unfolding(acn_world::specs::Unknown::acn_type_named))]
pub fn acn_type_named(index: &Index, owner: &[u8], name: &[u8]) -> Option<TypeId>
    ensures { result ≡ spec.acn_type_named (index_view index.now) owner.now name.now }
{
    let k = module_named(index, owner)?;
    type_named(index, k, &None, name)
}

// Whether what is mentioned in an ACN module is there.
#[tactic(auto, unfolding(acn_world::specs::Unknown::is_acn_known))]
fn is_acn_known(index: &Index, owner: &[u8], mention: AcnMention<'_>) -> bool
    ensures { result ≡ spec.is_acn_known (index_view index.now) owner.now (acn_mention_view mention.entry) }
{
    match mention {
        AcnMention::Parameter { name } => acn_type_named(index, owner, name.bytes()).is_some(),
        AcnMention::Field { name } => acn_type_named(index, owner, name.bytes()).is_some(),
        AcnMention::Table { name } => table_named(index, name.bytes()).is_some(),
    }
}

/// The name that is mentioned.
pub fn acn_mention_name<'t>(mention: AcnMention<'t>) -> &'t Name
    ensures { result.now ≡ spec.acn_mention_name (acn_mention_view mention.entry) }
{
    match mention {
        AcnMention::Parameter { name } => name,
        AcnMention::Field { name } => name,
        AcnMention::Table { name } => name,
    }
}

// Adds the names that are mentioned and lead nowhere.
fn push_mentions<'t>(
    index: &Index,
    owner: &[u8],
    mentions: &[AcnMention<'t>],
    all: &mut Vec<&'t Name>,
) -> Result<(), NoMemory>
    ensures { OnOk result (names_view all.new.items ≡ names_view all.old.items ++ spec.acn_unknown_mentions (index_view index.now) owner.now (acn_mentions_view mentions.now)) }
{
    for mention in mentions {
        if !is_acn_known(index, owner, *mention) {
            all.push(acn_mention_name(*mention))?;
        }
    }
    Ok(())
}

// Adds the name of an entry, where its module has no such type.
fn push_entry_name<'t>(
    index: &Index,
    owner: &[u8],
    name: &'t Name,
    all: &mut Vec<&'t Name>,
) -> Result<(), NoMemory>
    ensures { OnOk result (names_view all.new.items ≡ names_view all.old.items ++ when (not (is_some (type_in (index_view index.now) owner.now name.now))) name.now) }
{
    if type_in(index, owner, name.bytes()).is_none() {
        all.push(name)?;
    }
    Ok(())
}

// Adds the names in an entry that lead nowhere.
fn push_unknown_entry<'t>(
    alloc: Global,
    index: &Index,
    owner: &[u8],
    entry: &'t AcnEntry,
    all: &mut Vec<&'t Name>,
) -> Result<(), NoMemory>
    ensures { OnOk result (names_view all.new.items ≡ names_view all.old.items ++ spec.entry_unknown (index_view index.now) owner.now (entry_of entry.now)) }
{
    push_entry_name(index, owner, &entry.name, all)?;
    let mut mentions = Vec::new(alloc);
    push_entry(entry, &mut mentions)?;
    push_mentions(index, owner, mentions.as_slice(), all)?;
    Ok(())
}

// Adds those in entries.
fn push_entries<'t>(
    alloc: Global,
    index: &Index,
    owner: &[u8],
    entries: &'t [AcnEntry],
    all: &mut Vec<&'t Name>,
) -> Result<(), NoMemory>
    ensures { OnOk result (names_view all.new.items ≡ names_view all.old.items ++ flat_map (spec.entry_unknown (index_view index.now) owner.now) (map entry_of entries.now)) }
{
    for entry in entries {
        push_unknown_entry(alloc, index, owner, entry, all)?;
    }
    Ok(())
}

// Adds the faults of an ACN module.
#[tactic(auto, unfolding(acn_world::specs::Unknown::acn_unknown_in))]
fn push_module<'t>(
    alloc: Global,
    index: &Index,
    owner: &'t AcnModule,
    all: &mut Vec<Blame<'t>>,
) -> Result<(), NoMemory>
    ensures { OnOk result (blames_view all.new.items ≡ blames_view all.old.items ++ spec.unknown_of owner.now.name (spec.acn_unknown_in (index_view index.now) (module_of owner.now))) }
{
    let mut names = Vec::new(alloc);
    push_entries(
        alloc,
        index,
        owner.name.bytes(),
        owner.entries.items(),
        &mut names,
    )?;
    push_blames(Kind::Unknown, &owner.name, names.as_slice(), all)?;
    Ok(())
}

/// Adds the faults of the ACN modules.
pub fn push_acn_modules<'t>(
    alloc: Global,
    index: &Index,
    modules: &'t [AcnModule],
    all: &mut Vec<Blame<'t>>,
) -> Result<(), NoMemory>
    ensures { OnOk result (blames_view all.new.items ≡ blames_view all.old.items ++ flat_map (λ a. spec.unknown_of a.name (spec.acn_unknown_in (index_view index.now) a)) (map module_of modules.now)) }
{
    for owner in modules {
        push_module(alloc, index, owner, all)?;
    }
    Ok(())
}
