ghost use Rattle.std.specs.Prelude.{◌≡◌, [], ◌∷◌, ◌++◌, not, ◌&&◌, map, flat_map, option_map, option_copied, OnOk, IfOk, ◌+◌, ◌<◌, length};
ghost use Rattle.std.specs.List.{enumerate_from};
ghost use Rattle.acn_asn_syntax.specs.View.{assign_view, module_view, base_view, type_view};
ghost use Rattle.acn_acn_syntax.specs.View.{entry_of, module_of};
ghost use Rattle.acn_index.specs.Views.{index_view};
ghost use Rattle.acn_mentions.specs.Mentioned.{mention_view, mentions_view, governor_view};
ghost use Rattle.acn_mentions.specs.AcnMentioned.{acn_mention_view, acn_mentions_view};
ghost use Rattle.acn_world.specs.Repeated.{is_among, when};
ghost use Rattle.acn_world.specs.Unknown.{governor_names, mention_name, acn_mention_name};
ghost use Rattle.acn_world.specs.Cycles as spec;
ghost use Rattle.acn_world.specs.Faults.{first};
ghost use Rattle.acn_repeated.specs.Named.{names_view};
ghost use Rattle.acn_repeated.specs.Blamed.{blame_view, blames_view};

use crate::first::{blamed, fault_where, first_blame};
use crate::unknown::{is_governed, mention_name, push_assign};
use crate::unknown_acn::{acn_mention_name, acn_type_named};
use acn_acn_syntax::{AcnEntry, AcnModule};
use acn_asn_syntax::{AsnBase, AsnModule, AsnType, Assign};
use acn_hints::Hints;
use acn_index::chain::{assigned_link, base_of, written};
use acn_index::index::Index;
use acn_index::values::leads_to_number;
use acn_mentions::{AcnMention, Mention, Role, push_entry};
use acn_num::{Name, NoMemory};
use acn_repeated::{Blame, Kind, push_blames};
use acn_world::NameFault;
use std::alloc::Global;

// Whether the type is INTEGER.
#[tactic(auto, using(acn_asn_syntax::proofs::Views::type_views))]
fn is_integer(base: &AsnBase) -> bool
    ensures { result ≡ spec.is_integer (base_view base.now) }
{
    match base {
        AsnBase::Integer(_) => true,
        AsnBase::Enumerated(_) => false,
        AsnBase::Ref(_, _) => false,
        AsnBase::Boolean => false,
        AsnBase::Null => false,
        AsnBase::OctetString => false,
        AsnBase::BitString => false,
        AsnBase::Ia5String => false,
        AsnBase::Sequence(_) => false,
        AsnBase::SequenceOf(_, _) => false,
        AsnBase::Choice(_) => false,
    }
}

// Whether the type may be that of a parameter.
#[tactic(auto, using(acn_asn_syntax::proofs::Views::type_views))]
fn fits_parameter(base: &AsnBase) -> bool
    ensures { result ≡ spec.fits_parameter (base_view base.now) }
{
    match base {
        AsnBase::Integer(_) => true,
        AsnBase::Enumerated(_) => true,
        AsnBase::Boolean => true,
        AsnBase::Ref(_, _) => false,
        AsnBase::Null => false,
        AsnBase::OctetString => false,
        AsnBase::BitString => false,
        AsnBase::Ia5String => false,
        AsnBase::Sequence(_) => false,
        AsnBase::SequenceOf(_, _) => false,
        AsnBase::Choice(_) => false,
    }
}

// Whether the type may be that of an inserted field.
#[tactic(auto, using(acn_asn_syntax::proofs::Views::type_views))]
fn fits_field(base: &AsnBase) -> bool
    ensures { result ≡ spec.fits_field (base_view base.now) }
{
    match base {
        AsnBase::Integer(_) => true,
        AsnBase::Enumerated(_) => true,
        AsnBase::Boolean => true,
        AsnBase::Null => true,
        AsnBase::Ref(_, _) => false,
        AsnBase::OctetString => false,
        AsnBase::BitString => false,
        AsnBase::Ia5String => false,
        AsnBase::Sequence(_) => false,
        AsnBase::SequenceOf(_, _) => false,
        AsnBase::Choice(_) => false,
    }
}

// Whether a constraint is of an INTEGER.
fn is_integer_type(index: &Index, k: u32, governor: Option<&AsnType>) -> bool
    ensures { result ≡ spec.is_integer_type (index_view index.now) k (governor_view governor.entry) }
{
    match governor {
        None => false,
        Some(of) => is_integer(base_of(index, written(k, of))),
    }
}

// Whether a value in a constraint is used as a number by its role.
fn is_number_role(index: &Index, k: u32, governor: Option<&AsnType>, role: Role) -> bool
    ensures { result ≡ spec.is_number_role (index_view index.now) k (governor_view governor.entry) role }
{
    match role {
        Role::Element => is_integer_type(index, k, governor),
        Role::Size => true,
        Role::Letters => false,
    }
}

// Whether an identifier of a constraint is used as a number, and isn't a name that the type gives to one.
fn is_number_in(
    index: &Index,
    hints: &mut Hints,
    k: u32,
    governor: Option<&AsnType>,
    role: Role,
    name: &[u8],
) -> Result<bool, NoMemory>
    ensures { IfOk result (λ used. used ≡ (spec.is_number_role (index_view index.now) k (governor_view governor.entry) role && not (is_among name.now (governor_names (index_view index.now) k (governor_view governor.entry))))) }
{
    if !is_number_role(index, k, governor, role) {
        return Ok(false);
    }
    let governed = is_governed(index, hints, k, governor, name)?;
    Ok(!governed)
}

// Whether what is mentioned is used as a number.
#[tactic(auto, unfolding(acn_world::specs::Cycles::is_as_number))]
fn is_as_number(
    index: &Index,
    hints: &mut Hints,
    k: u32,
    mention: Mention<'_>,
) -> Result<bool, NoMemory>
    ensures { IfOk result (λ used. used ≡ spec.is_as_number (index_view index.now) k (mention_view mention.entry)) }
{
    match mention {
        Mention::Constraint {
            governor,
            role,
            name,
        } => is_number_in(index, hints, k, governor, role, name.bytes()),
        Mention::Type { .. } => Ok(false),
        Mention::Default { .. } => Ok(false),
        Mention::Assignment { .. } => Ok(false),
    }
}

// Whether what is mentioned is used as a number and leads to none. Where it leads to a number its type isn't walked
// to its base.
fn is_wrong(
    index: &Index,
    hints: &mut Hints,
    k: u32,
    mention: Mention<'_>,
) -> Result<bool, NoMemory>
    ensures { IfOk result (λ wrong. wrong ≡ spec.is_wrong (index_view index.now) k (mention_view mention.entry)) }
{
    if leads_to_number(index, k, mention_name(mention).bytes()) {
        return Ok(false);
    }
    is_as_number(index, hints, k, mention)
}

// The first name that is mentioned and is of the wrong kind.
fn first_mention<'t>(
    index: &Index,
    hints: &mut Hints,
    k: u32,
    mentions: &[Mention<'t>],
) -> Result<Option<&'t Name>, NoMemory>
    ensures { IfOk result (λ found. option_copied found ≡ first (flat_map (λ m. when (spec.is_wrong (index_view index.now) k m) (mention_name m)) (mentions_view mentions.now))) }
{
    for mention in mentions {
        let wrong = is_wrong(index, hints, k, *mention)?;
        if wrong {
            return Ok(Some(mention_name(*mention)));
        }
    }
    Ok(None)
}

// The first in an assignment.
fn first_in_item<'t>(
    alloc: Global,
    index: &Index,
    hints: &mut Hints,
    k: u32,
    item: &'t Assign,
) -> Result<Option<&'t Name>, NoMemory>
    ensures { IfOk result (λ found. option_copied found ≡ first (spec.wrong_in (index_view index.now) k (assign_view item.now))) }
{
    let mut mentions = Vec::new(alloc);
    push_assign(item, &mut mentions)?;
    first_mention(index, hints, k, mentions.as_slice())
}

// The first in assignments.
#[tactic(auto, using(crate::proofs::FirstFound::first_append, crate::proofs::FirstFound::mapped_some, crate::proofs::FirstFound::mapped_none))]
fn first_in_items<'t>(
    alloc: Global,
    index: &Index,
    hints: &mut Hints,
    k: u32,
    items: &'t [Assign],
) -> Result<Option<&'t Name>, NoMemory>
    ensures { IfOk result (λ found. option_copied found ≡ first (flat_map (spec.wrong_in (index_view index.now) k) (map assign_view items.now))) }
{
    for item in items {
        let found = first_in_item(alloc, index, hints, k, item)?;
        if found.is_some() {
            return Ok(found);
        }
    }
    Ok(None)
}

// The first fault of a module.
#[tactic(auto, using(crate::proofs::FirstFound::first_mapped))]
fn first_blame_in<'t>(
    alloc: Global,
    index: &Index,
    hints: &mut Hints,
    k: u32,
    owner: &'t AsnModule,
) -> Result<Option<Blame<'t>>, NoMemory>
    ensures { IfOk result (λ found. option_map blame_view found ≡ first (spec.wrong_of owner.now.name (flat_map (spec.wrong_in (index_view index.now) k) (module_view owner.now).items))) }
{
    let found = first_in_items(alloc, index, hints, k, owner.items.items())?;
    Ok(blamed(Kind::WrongKind, &owner.name, found))
}

// The first fault of the modules. What stands behind it is not looked at.
#[tactic(auto, using(crate::proofs::FirstFound::first_append, crate::proofs::FirstFound::mapped_some, crate::proofs::FirstFound::mapped_none))]
fn first_in_modules<'t>(
    alloc: Global,
    index: &Index,
    hints: &mut Hints,
    modules: &'t [AsnModule],
) -> Result<Option<Blame<'t>>, NoMemory>
    requires { length modules.now < 4294967296 }
    ensures { IfOk result (λ found. option_map blame_view found ≡ first (flat_map (λ m. spec.wrong_of m.1.name (flat_map (spec.wrong_in (index_view index.now) m.0) m.1.items)) (enumerate_from 0 (map module_view modules.now)))) }
{
    for (k, owner) in modules.iter().enumerate() {
        let found = first_blame_in(alloc, index, hints, k as u32, owner)?;
        if found.is_some() {
            return Ok(found);
        }
    }
    Ok(None)
}

// Whether the type of a parameter is one that it may have.
fn parameter_fits(index: &Index, owner: &[u8], name: &[u8]) -> bool
    ensures { result ≡ spec.kind_fits (index_view index.now) spec.fits_parameter owner.now name.now }
{
    match acn_type_named(index, owner, name) {
        None => false,
        Some(place) => match assigned_link(index, place) {
            None => false,
            Some(link) => fits_parameter(base_of(index, link)),
        },
    }
}

// Whether the type of an inserted field is one that it may have.
fn field_fits(index: &Index, owner: &[u8], name: &[u8]) -> bool
    ensures { result ≡ spec.kind_fits (index_view index.now) spec.fits_field owner.now name.now }
{
    match acn_type_named(index, owner, name) {
        None => false,
        Some(place) => match assigned_link(index, place) {
            None => false,
            Some(link) => fits_field(base_of(index, link)),
        },
    }
}

// Whether what is mentioned in an ACN module is of the wrong kind.
#[tactic(auto, unfolding(acn_world::specs::Cycles::is_acn_wrong))]
fn is_acn_wrong(index: &Index, owner: &[u8], mention: AcnMention<'_>) -> bool
    ensures { result ≡ spec.is_acn_wrong (index_view index.now) owner.now (acn_mention_view mention.entry) }
{
    match mention {
        AcnMention::Parameter { name } => !parameter_fits(index, owner, name.bytes()),
        AcnMention::Field { name } => !field_fits(index, owner, name.bytes()),
        AcnMention::Table { .. } => false,
    }
}

// Adds the names that are mentioned in an ACN module and are of the wrong kind.
fn push_acn_mentions<'t>(
    index: &Index,
    owner: &[u8],
    mentions: &[AcnMention<'t>],
    all: &mut Vec<&'t Name>,
) -> Result<(), NoMemory>
    ensures { OnOk result (names_view all.new.items ≡ names_view all.old.items ++ flat_map (λ m. when (spec.is_acn_wrong (index_view index.now) owner.now m) (acn_mention_name m)) (acn_mentions_view mentions.now)) }
{
    for mention in mentions {
        if is_acn_wrong(index, owner, *mention) {
            all.push(acn_mention_name(*mention))?;
        }
    }
    Ok(())
}

// Adds those in an entry.
fn push_wrong_entry<'t>(
    alloc: Global,
    index: &Index,
    owner: &[u8],
    entry: &'t AcnEntry,
    all: &mut Vec<&'t Name>,
) -> Result<(), NoMemory>
    ensures { OnOk result (names_view all.new.items ≡ names_view all.old.items ++ spec.acn_wrong_in (index_view index.now) owner.now (entry_of entry.now)) }
{
    let mut mentions = Vec::new(alloc);
    push_entry(entry, &mut mentions)?;
    push_acn_mentions(index, owner, mentions.as_slice(), all)?;
    Ok(())
}

// Adds those in entries.
fn push_entries<'t>(
    alloc: Global,
    index: &Index,
    owner: &[u8],
    entries: &'t [AcnEntry],
    all: &mut Vec<&'t Name>,
) -> Result<(), NoMemory>
    ensures { OnOk result (names_view all.new.items ≡ names_view all.old.items ++ flat_map (spec.acn_wrong_in (index_view index.now) owner.now) (map entry_of entries.now)) }
{
    for entry in entries {
        push_wrong_entry(alloc, index, owner, entry, all)?;
    }
    Ok(())
}

// Adds the faults of an ACN module.
fn push_acn_module<'t>(
    alloc: Global,
    index: &Index,
    owner: &'t AcnModule,
    all: &mut Vec<Blame<'t>>,
) -> Result<(), NoMemory>
    ensures { OnOk result (blames_view all.new.items ≡ blames_view all.old.items ++ spec.wrong_of owner.now.name (flat_map (spec.acn_wrong_in (index_view index.now) owner.now.name) (module_of owner.now).entries)) }
{
    let mut names = Vec::new(alloc);
    push_entries(
        alloc,
        index,
        owner.name.bytes(),
        owner.entries.items(),
        &mut names,
    )?;
    push_blames(Kind::WrongKind, &owner.name, names.as_slice(), all)?;
    Ok(())
}

// Adds the faults of the ACN modules.
fn push_acn_modules<'t>(
    alloc: Global,
    index: &Index,
    modules: &'t [AcnModule],
    all: &mut Vec<Blame<'t>>,
) -> Result<(), NoMemory>
    ensures { OnOk result (blames_view all.new.items ≡ blames_view all.old.items ++ flat_map (λ a. spec.wrong_of a.name (flat_map (spec.acn_wrong_in (index_view index.now) a.name) a.entries)) (map module_of modules.now)) }
{
    for owner in modules {
        push_acn_module(alloc, index, owner, all)?;
    }
    Ok(())
}

// The first reference that is of the wrong kind.
#[tactic(auto, unfolding(acn_world::specs::Cycles::wrong_kinds), using(crate::proofs::FirstFound::first_append, crate::proofs::FirstFound::mapped_some, crate::proofs::FirstFound::mapped_none))]
fn first_wrong<'w>(alloc: Global, index: &'w Index) -> Result<Option<Blame<'w>>, NoMemory>
    ensures { IfOk result (λ found. option_map blame_view found ≡ first (spec.wrong_kinds (index_view index.now))) }
{
    let mut hints = Hints::new(alloc);
    let found = first_in_modules(alloc, index, &mut hints, index.modules.items())?;
    if found.is_some() {
        return Ok(found);
    }
    let mut all = Vec::new(alloc);
    push_acn_modules(alloc, index, index.acn.items(), &mut all)?;
    Ok(first_blame(all.as_slice()))
}

/// The fault behind the cycles: the first reference in the text that is of the wrong kind.
pub fn late_fault(alloc: Global, index: &Index) -> Result<Option<NameFault>, NoMemory>
    ensures { IfOk result (λ f. f ≡ first (spec.wrong_kinds (index_view index.now))) }
{
    let found = first_wrong(alloc, index)?;
    fault_where(alloc, found)
}
