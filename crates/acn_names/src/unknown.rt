ghost use Rattle.std.specs.Prelude.{◌≡◌, [], ◌∷◌, ◌++◌, not, ◌||◌, is_some, map, flat_map, option_map, option_copied, OnOk, IfOk, ◌+◌, ◌<◌, length};
ghost use Rattle.std.specs.List.{enumerate_from};
ghost use Rattle.acn_asn_syntax.specs.View.{assign_view, module_view, base_view, type_view};
ghost use Rattle.acn_index.specs.Views.{index_view};
ghost use Rattle.acn_mentions.specs.Mentioned.{mention_view, mentions_view, governor_view};
ghost use Rattle.acn_mentions.specs.Mentions as mentions;
ghost use Rattle.acn_world.specs.Repeated as repeated;
ghost use Rattle.acn_world.specs.Unknown as spec;
ghost use Rattle.acn_world.specs.Faults.{first};
ghost use Rattle.acn_repeated.specs.Named.{names_view};
ghost use Rattle.acn_repeated.specs.Blamed.{blame_view};

use crate::first::{blamed, first_name};
use acn_asn_syntax::{AsnBase, AsnModule, AsnType, AsnValue, Assign, Import, Named};
use acn_hints::Hints;
use acn_index::chain::{base_of, written};
use acn_index::index::Index;
use acn_index::lookup::{Sort, found, imports_of, module_named};
use acn_index::references::{type_named, value_named};
use acn_mentions::{Mention, push_type};
use acn_num::{Name, NoMemory, Row};
use acn_repeated::{Blame, Kind};
use std::alloc::Global;

// Whether one of the named numbers has this name, where some are written.
fn is_listed_number(
    hints: &mut Hints,
    name: &[u8],
    named: &Option<Row<Named>>,
) -> Result<bool, NoMemory>
    ensures { IfOk result (λ found. found ≡ repeated.is_among name.now (repeated.named_names named.now)) }
{
    match named {
        None => Ok(false),
        Some(some) => hints.is_among(name, some.items()),
    }
}

// Whether a type gives this name to a number or an item.
#[tactic(auto, using(acn_asn_syntax::proofs::Views::type_views))]
fn is_base_name(hints: &mut Hints, name: &[u8], base: &AsnBase) -> Result<bool, NoMemory>
    ensures { IfOk result (λ found. found ≡ repeated.is_among name.now (spec.base_names (base_view base.now))) }
{
    match base {
        AsnBase::Integer(named) => is_listed_number(hints, name, named),
        AsnBase::Enumerated(items) => hints.is_among(name, items.items()),
        AsnBase::Ref(_, _) => Ok(false),
        AsnBase::Boolean => Ok(false),
        AsnBase::Null => Ok(false),
        AsnBase::OctetString => Ok(false),
        AsnBase::BitString => Ok(false),
        AsnBase::Ia5String => Ok(false),
        AsnBase::Sequence(_) => Ok(false),
        AsnBase::SequenceOf(_, _) => Ok(false),
        AsnBase::Choice(_) => Ok(false),
    }
}

// Whether the base of a type gives this name to a number or an item.
#[tactic(auto, unfolding(acn_world::specs::Unknown::names_of))]
fn is_name_of(
    index: &Index,
    hints: &mut Hints,
    k: u32,
    of: &AsnType,
    name: &[u8],
) -> Result<bool, NoMemory>
    ensures { IfOk result (λ found. found ≡ repeated.is_among name.now (spec.names_of (index_view index.now) k (type_view of.now))) }
{
    is_base_name(hints, name, base_of(index, written(k, of)))
}

/// Whether the type that a constraint is of gives this name to a number or an item.
pub fn is_governed(
    index: &Index,
    hints: &mut Hints,
    k: u32,
    governor: Option<&AsnType>,
    name: &[u8],
) -> Result<bool, NoMemory>
    ensures { IfOk result (λ found. found ≡ repeated.is_among name.now (spec.governor_names (index_view index.now) k (governor_view governor.entry))) }
{
    match governor {
        None => Ok(false),
        Some(of) => is_name_of(index, hints, k, of, name),
    }
}

// Whether a value has this name in a module.
fn is_value_named(index: &Index, k: u32, name: &[u8]) -> bool
    ensures { result ≡ spec.is_value_named (index_view index.now) k name.now }
{
    value_named(index, k, name).is_some()
}

// Whether an identifier of a constraint names a value, or a number or an item of the type that the constraint is of. Values
// are looked up first, since that costs least.
fn is_known_in(
    index: &Index,
    hints: &mut Hints,
    k: u32,
    governor: Option<&AsnType>,
    name: &[u8],
) -> Result<bool, NoMemory>
    ensures { IfOk result (λ known. known ≡ (repeated.is_among name.now (spec.governor_names (index_view index.now) k (governor_view governor.entry)) || spec.is_value_named (index_view index.now) k name.now)) }
{
    if is_value_named(index, k, name) {
        return Ok(true);
    }
    is_governed(index, hints, k, governor, name)
}

// Whether what is mentioned in a module is there.
#[tactic(auto, unfolding(acn_world::specs::Unknown::is_known))]
fn is_known(
    index: &Index,
    hints: &mut Hints,
    k: u32,
    mention: Mention<'_>,
) -> Result<bool, NoMemory>
    ensures { IfOk result (λ known. known ≡ spec.is_known (index_view index.now) k (mention_view mention.entry)) }
{
    match mention {
        Mention::Type { from, name } => Ok(type_named(index, k, from, name.bytes()).is_some()),
        Mention::Constraint { governor, name, .. } => {
            is_known_in(index, hints, k, governor, name.bytes())
        }
        Mention::Default { of, name } => is_known_in(index, hints, k, Some(of), name.bytes()),
        Mention::Assignment { name } => Ok(is_value_named(index, k, name.bytes())),
    }
}

/// The name that is mentioned.
pub fn mention_name<'t>(mention: Mention<'t>) -> &'t Name
    ensures { result.now ≡ spec.mention_name (mention_view mention.entry) }
{
    match mention {
        Mention::Type { name, .. } => name,
        Mention::Constraint { name, .. } => name,
        Mention::Default { name, .. } => name,
        Mention::Assignment { name } => name,
    }
}

// The first name that is mentioned and leads nowhere.
fn first_mention<'t>(
    index: &Index,
    hints: &mut Hints,
    k: u32,
    mentions: &[Mention<'t>],
) -> Result<Option<&'t Name>, NoMemory>
    ensures { IfOk result (λ found. option_copied found ≡ first (spec.unknown_mentions (index_view index.now) k (mentions_view mentions.now))) }
{
    for mention in mentions {
        let known = is_known(index, hints, k, *mention)?;
        if !known {
            return Ok(Some(mention_name(*mention)));
        }
    }
    Ok(None)
}

// Adds the identifier that a value is.
fn push_value<'t>(value: &'t AsnValue, all: &mut Vec<Mention<'t>>) -> Result<(), NoMemory>
    ensures { OnOk result (mentions_view all.new.items ≡ mentions_view all.old.items ++ mentions.value_mentions value.now) }
{
    match value {
        AsnValue::Ref(name) => {
            all.push(Mention::Assignment { name })?;
            Ok(())
        }
        AsnValue::Number(_, _) => Ok(()),
        AsnValue::True => Ok(()),
        AsnValue::False => Ok(()),
        AsnValue::Null => Ok(()),
        AsnValue::Bits(_) => Ok(()),
        AsnValue::Hex(_) => Ok(()),
        AsnValue::Text(_) => Ok(()),
    }
}

/// Adds what is mentioned in an assignment.
#[tactic(auto, unfolding(acn_mentions::specs::Mentions::assign_mentions))]
pub fn push_assign<'t>(item: &'t Assign, all: &mut Vec<Mention<'t>>) -> Result<(), NoMemory>
    ensures { OnOk result (mentions_view all.new.items ≡ mentions_view all.old.items ++ mentions.assign_mentions (assign_view item.now)) }
{
    match item {
        Assign::TypeIs(_, of) => push_type(of, all),
        Assign::ValueIs(_, of, value) => {
            push_type(of, all)?;
            push_value(value, all)?;
            Ok(())
        }
    }
}

// The first name in an assignment that leads nowhere.
fn first_in_item<'t>(
    alloc: Global,
    index: &Index,
    hints: &mut Hints,
    k: u32,
    item: &'t Assign,
) -> Result<Option<&'t Name>, NoMemory>
    ensures { IfOk result (λ found. option_copied found ≡ first (spec.unknown_mentions (index_view index.now) k (mentions.assign_mentions (assign_view item.now)))) }
{
    let mut mentions = Vec::new(alloc);
    push_assign(item, &mut mentions)?;
    first_mention(index, hints, k, mentions.as_slice())
}

// The first in assignments.
#[tactic(auto, using(crate::proofs::FirstFound::first_append, crate::proofs::FirstFound::mapped_some, crate::proofs::FirstFound::mapped_none))]
fn first_in_items<'t>(
    alloc: Global,
    index: &Index,
    hints: &mut Hints,
    k: u32,
    items: &'t [Assign],
) -> Result<Option<&'t Name>, NoMemory>
    ensures { IfOk result (λ found. option_copied found ≡ first (flat_map (λ a. spec.unknown_mentions (index_view index.now) k (mentions.assign_mentions a)) (map assign_view items.now))) }
{
    for item in items {
        let found = first_in_item(alloc, index, hints, k, item)?;
        if found.is_some() {
            return Ok(found);
        }
    }
    Ok(None)
}

// Whether the module from which a name is imported has it.
fn is_import_known(index: &Index, from: &[u8], name: &[u8]) -> bool
    ensures { result ≡ spec.is_import_known (index_view index.now) from.now name.now }
{
    match module_named(index, from) {
        None => false,
        Some(k) => found(index, Sort::Any, name, k).is_some(),
    }
}

// Adds the names that are imported from a module that hasn't them.
fn push_import_names<'t>(
    index: &Index,
    from: &[u8],
    names: &'t [Name],
    all: &mut Vec<&'t Name>,
) -> Result<(), NoMemory>
    ensures { OnOk result (names_view all.new.items ≡ names_view all.old.items ++ flat_map (λ n. repeated.when (not (spec.is_import_known (index_view index.now) from.now n)) n) names.now) }
{
    for name in names {
        if !is_import_known(index, from, name.bytes()) {
            all.push(name)?;
        }
    }
    Ok(())
}

// Adds those of imports.
fn push_imports<'t>(
    index: &Index,
    imports: &'t [Import],
    all: &mut Vec<&'t Name>,
) -> Result<(), NoMemory>
    ensures { OnOk result (names_view all.new.items ≡ names_view all.old.items ++ flat_map (spec.import_unknown (index_view index.now)) imports.now) }
{
    for import in imports {
        push_import_names(index, import.module.bytes(), import.names.items(), all)?;
    }
    Ok(())
}

// The first name in a module that leads nowhere.
#[tactic(auto, unfolding(acn_world::specs::Unknown::unknown_in), using(crate::proofs::FirstFound::first_append, crate::proofs::FirstFound::mapped_some, crate::proofs::FirstFound::mapped_none))]
fn first_in_module<'t>(
    alloc: Global,
    index: &Index,
    hints: &mut Hints,
    k: u32,
    owner: &'t AsnModule,
) -> Result<Option<&'t Name>, NoMemory>
    ensures { IfOk result (λ found. option_copied found ≡ first (spec.unknown_in (index_view index.now) k (module_view owner.now))) }
{
    let mut names = Vec::new(alloc);
    push_imports(index, imports_of(owner), &mut names)?;
    let found = first_name(names.as_slice());
    if found.is_some() {
        return Ok(found);
    }
    first_in_items(alloc, index, hints, k, owner.items.items())
}

// The first fault of a module.
#[tactic(auto, using(crate::proofs::FirstFound::first_mapped))]
fn first_blame_in<'t>(
    alloc: Global,
    index: &Index,
    hints: &mut Hints,
    k: u32,
    owner: &'t AsnModule,
) -> Result<Option<Blame<'t>>, NoMemory>
    ensures { IfOk result (λ found. option_map blame_view found ≡ first (spec.unknown_of owner.now.name (spec.unknown_in (index_view index.now) k (module_view owner.now)))) }
{
    let found = first_in_module(alloc, index, hints, k, owner)?;
    Ok(blamed(Kind::Unknown, &owner.name, found))
}

/// The first fault of the modules. What stands behind it is not looked at.
#[tactic(auto, using(crate::proofs::FirstFound::first_append, crate::proofs::FirstFound::mapped_some, crate::proofs::FirstFound::mapped_none))]
pub fn first_in_modules<'t>(
    alloc: Global,
    index: &Index,
    hints: &mut Hints,
    modules: &'t [AsnModule],
) -> Result<Option<Blame<'t>>, NoMemory>
    requires { length modules.now < 4294967296 }
    ensures { IfOk result (λ found. option_map blame_view found ≡ first (flat_map (λ m. spec.unknown_of m.1.name (spec.unknown_in (index_view index.now) m.0 m.1)) (enumerate_from 0 (map module_view modules.now)))) }
{
    for (k, owner) in modules.iter().enumerate() {
        let found = first_blame_in(alloc, index, hints, k as u32, owner)?;
        if found.is_some() {
            return Ok(found);
        }
    }
    Ok(None)
}
