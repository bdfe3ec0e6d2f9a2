ghost use Rattle.std.specs.Prelude.{◌≡◌, [], ◌∷◌, ◌++◌, map, flat_map, OnOk, IfOk};
ghost use Rattle.acn_world.specs.Repeated as spec;
ghost use Rattle.acn_repeated.specs.Named.{names_view};

use crate::seen::push_repeated;
use acn_acn_syntax::{MapTable, Param};
use acn_asn_syntax::{Import, Item, Named};
use acn_num::{Name, NoMemory, Row};
use std::alloc::Global;

// The names of named numbers.
fn push_named<'t>(named: &'t [Named], all: &mut Vec<&'t Name>) -> Result<(), NoMemory>
    ensures { OnOk result (names_view all.new.items ≡ names_view all.old.items ++ map (λ n. n.name) named.now) }
{
    for one in named {
        all.push(&one.name)?;
    }
    Ok(())
}

// The names of items.
fn push_items<'t>(items: &'t [Item], all: &mut Vec<&'t Name>) -> Result<(), NoMemory>
    ensures { OnOk result (names_view all.new.items ≡ names_view all.old.items ++ map (λ n. n.name) items.now) }
{
    for one in items {
        all.push(&one.name)?;
    }
    Ok(())
}

// The names of parameters.
fn push_parameters<'t>(parameters: &'t [Param], all: &mut Vec<&'t Name>) -> Result<(), NoMemory>
    ensures { OnOk result (names_view all.new.items ≡ names_view all.old.items ++ map (λ n. n.name) parameters.now) }
{
    for one in parameters {
        all.push(&one.name)?;
    }
    Ok(())
}

// The names of tables.
fn push_tables<'t>(tables: &'t [MapTable], all: &mut Vec<&'t Name>) -> Result<(), NoMemory>
    ensures { OnOk result (names_view all.new.items ≡ names_view all.old.items ++ map (λ n. n.name) tables.now) }
{
    for one in tables {
        all.push(&one.name)?;
    }
    Ok(())
}

// The names of a list.
fn push_names<'t>(names: &'t [Name], all: &mut Vec<&'t Name>) -> Result<(), NoMemory>
    ensures { OnOk result (names_view all.new.items ≡ names_view all.old.items ++ names.now) }
{
    for one in names {
        all.push(one)?;
    }
    Ok(())
}

/// The names that imports bring in.
pub fn push_imports<'t>(imports: &'t [Import], all: &mut Vec<&'t Name>) -> Result<(), NoMemory>
    ensures { OnOk result (names_view all.new.items ≡ names_view all.old.items ++ flat_map (λ i. i.names) imports.now) }
{
    for import in imports {
        push_names(import.names.items(), all)?;
    }
    Ok(())
}

/// Adds the named numbers that repeat one before them.
pub fn push_twice_named<'t>(
    alloc: Global,
    named: &'t Option<Row<Named>>,
    all: &mut Vec<&'t Name>,
) -> Result<(), NoMemory>
    ensures { OnOk result (names_view all.new.items ≡ names_view all.old.items ++ spec.repeated [] (spec.named_names named.now)) }
{
    let mut names = Vec::new(alloc);
    match named {
        None => {}
        Some(some) => push_named(some.items(), &mut names)?,
    }
    push_repeated(alloc, names.as_slice(), all)
}

/// Adds the items that repeat one before them.
pub fn push_twice_items<'t>(
    alloc: Global,
    items: &'t [Item],
    all: &mut Vec<&'t Name>,
) -> Result<(), NoMemory>
    ensures { OnOk result (names_view all.new.items ≡ names_view all.old.items ++ spec.repeated [] (map (λ n. n.name) items.now)) }
{
    let mut names = Vec::new(alloc);
    push_items(items, &mut names)?;
    push_repeated(alloc, names.as_slice(), all)
}

/// Adds the parameters that repeat one before them.
pub fn push_twice_parameters<'t>(
    alloc: Global,
    parameters: &'t [Param],
    all: &mut Vec<&'t Name>,
) -> Result<(), NoMemory>
    ensures { OnOk result (names_view all.new.items ≡ names_view all.old.items ++ spec.repeated [] (map (λ n. n.name) parameters.now)) }
{
    let mut names = Vec::new(alloc);
    push_parameters(parameters, &mut names)?;
    push_repeated(alloc, names.as_slice(), all)
}

/// Adds the tables that repeat one before them.
pub fn push_twice_tables<'t>(
    alloc: Global,
    tables: &'t [MapTable],
    all: &mut Vec<&'t Name>,
) -> Result<(), NoMemory>
    ensures { OnOk result (names_view all.new.items ≡ names_view all.old.items ++ spec.repeated [] (map (λ n. n.name) tables.now)) }
{
    let mut names = Vec::new(alloc);
    push_tables(tables, &mut names)?;
    push_repeated(alloc, names.as_slice(), all)
}
