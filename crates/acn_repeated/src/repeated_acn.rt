ghost use Rattle.std.specs.Prelude.{◌≡◌, [], ◌∷◌, ◌++◌, map, OnOk, IfOk};
ghost use Rattle.acn_acn_syntax.specs.View.{field_of, fields_view, braces_view, entry_of, module_of};
ghost use Rattle.acn_world.specs.Repeated as spec;
ghost use Rattle.acn_repeated.specs.Named.{names_view};
ghost use Rattle.acn_repeated.specs.Blamed.{blames_view};

use crate::blame::{Blame, Kind, push_blames};
use crate::lists::push_twice_parameters;
use crate::seen::{Seen, nothing_seen, push_again, see};
use acn_acn_syntax::{AcnEntry, AcnField, AcnModule};
use acn_num::{Name, NoMemory, Row};
use std::alloc::Global;

// Adds what a field gives twice, and sees its name.
#[cycle(fields)]
#[tactic(auto, unfolding(acn_world::specs::Repeated::twice_field, acn_world::specs::Repeated::twice_braces, acn_world::specs::Repeated::twice_fields), using(acn_acn_syntax::proofs::Views::field_views))]
fn push_twice_field<'t>(
    alloc: Global,
    field: &'t AcnField,
    seen: &mut Seen<'t>,
    all: &mut Vec<&'t Name>,
) -> Result<(), NoMemory>
    ensures all { OnOk result (names_view all.new.items ≡ names_view all.old.items ++ (spec.again (spec.field_name (field_of field.now)) seen.old ++ spec.twice_field (field_of field.now))) }
    ensures seen { OnOk result (seen.new ≡ seen.old ++ spec.field_name (field_of field.now) ∷ []) }
{
    match field {
        AcnField::Plain { name, fields, .. } => {
            push_again(name, seen, all)?;
            see(name, seen)?;
            match fields {
                None => Ok(()),
                Some(inside) => {
                    let mut inner = nothing_seen(alloc);
                    push_twice_fields(alloc, inside.items(), &mut inner, all)?;
                    Ok(())
                }
            }
        }
        AcnField::Inserted { name, .. } => {
            push_again(name, seen, all)?;
            see(name, seen)?;
            Ok(())
        }
        AcnField::Number(name, _) => {
            push_again(name, seen, all)?;
            see(name, seen)?;
            Ok(())
        }
    }
}

// Adds what fields give twice, behind the names that were seen.
#[cycle(fields)]
#[tactic(auto, unfolding(acn_world::specs::Repeated::twice_field, acn_world::specs::Repeated::twice_braces, acn_world::specs::Repeated::twice_fields), using(acn_acn_syntax::proofs::Views::field_views))]
fn push_twice_fields<'t>(
    alloc: Global,
    fields: &'t [AcnField],
    seen: &mut Seen<'t>,
    all: &mut Vec<&'t Name>,
) -> Result<(), NoMemory>
    ensures { OnOk result (names_view all.new.items ≡ names_view all.old.items ++ spec.twice_fields seen.old (fields_view fields.now)) }
{
    for field in fields {
        push_twice_field(alloc, field, seen, all)?;
    }
    Ok(())
}

// Adds what braces give twice.
#[tactic(auto, unfolding(acn_world::specs::Repeated::twice_braces))]
fn push_twice_braces<'t>(
    alloc: Global,
    fields: &'t Option<Row<AcnField>>,
    all: &mut Vec<&'t Name>,
) -> Result<(), NoMemory>
    ensures { OnOk result (names_view all.new.items ≡ names_view all.old.items ++ spec.twice_braces (braces_view fields.now)) }
{
    match fields {
        None => Ok(()),
        Some(inside) => {
            let mut inner = nothing_seen(alloc);
            push_twice_fields(alloc, inside.items(), &mut inner, all)?;
            Ok(())
        }
    }
}

// Adds what an entry gives twice, and sees its name.
#[tactic(auto, unfolding(acn_world::specs::Repeated::twice_entry))]
fn push_twice_entry<'t>(
    alloc: Global,
    entry: &'t AcnEntry,
    seen: &mut Seen<'t>,
    all: &mut Vec<&'t Name>,
) -> Result<(), NoMemory>
    ensures all { OnOk result (names_view all.new.items ≡ names_view all.old.items ++ (spec.again entry.now.name seen.old ++ spec.twice_entry (entry_of entry.now))) }
    ensures seen { OnOk result (seen.new ≡ seen.old ++ entry.now.name ∷ []) }
{
    push_again(&entry.name, seen, all)?;
    push_twice_parameters(alloc, entry.parameters.items(), all)?;
    push_twice_braces(alloc, &entry.fields, all)?;
    see(&entry.name, seen)?;
    Ok(())
}

// Adds what entries give twice, behind the names that were seen.
#[tactic(auto, unfolding(acn_world::specs::Repeated::twice_entries))]
fn push_twice_entries<'t>(
    alloc: Global,
    entries: &'t [AcnEntry],
    seen: &mut Seen<'t>,
    all: &mut Vec<&'t Name>,
) -> Result<(), NoMemory>
    ensures { OnOk result (names_view all.new.items ≡ names_view all.old.items ++ spec.twice_entries seen.old (map entry_of entries.now)) }
{
    for entry in entries {
        push_twice_entry(alloc, entry, seen, all)?;
    }
    Ok(())
}

// Adds the faults of an ACN module, and sees its name.
fn push_acn_module<'t>(
    alloc: Global,
    owner: &'t AcnModule,
    seen: &mut Seen<'t>,
    all: &mut Vec<Blame<'t>>,
) -> Result<(), NoMemory>
    ensures all { OnOk result (blames_view all.new.items ≡ blames_view all.old.items ++ spec.repeats_of owner.now.name (spec.again owner.now.name seen.old ++ spec.twice_entries [] (module_of owner.now).entries)) }
    ensures seen { OnOk result (seen.new ≡ seen.old ++ owner.now.name ∷ []) }
{
    let mut names = Vec::new(alloc);
    push_again(&owner.name, seen, &mut names)?;
    let mut inner = nothing_seen(alloc);
    push_twice_entries(alloc, owner.entries.items(), &mut inner, &mut names)?;
    push_blames(Kind::Repeated, &owner.name, names.as_slice(), all)?;
    see(&owner.name, seen)?;
    Ok(())
}

/// Adds the faults of ACN modules, behind the modules that were seen.
#[tactic(auto, unfolding(acn_world::specs::Repeated::acn_repeats))]
pub fn push_acn_modules<'t>(
    alloc: Global,
    modules: &'t [AcnModule],
    seen: &mut Seen<'t>,
    all: &mut Vec<Blame<'t>>,
) -> Result<(), NoMemory>
    ensures { OnOk result (blames_view all.new.items ≡ blames_view all.old.items ++ spec.acn_repeats seen.old (map module_of modules.now)) }
{
    for owner in modules {
        push_acn_module(alloc, owner, seen, all)?;
    }
    Ok(())
}
