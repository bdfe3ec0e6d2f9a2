ghost use Rattle.std.specs.Prelude.{◌≡◌, map, IfOk, OnOk};
ghost use Rattle.acn_asn_syntax.specs.View.{module_view, assign_view};
ghost use Rattle.acn_acn_syntax.specs.View.{module_of, entry_of};
ghost use Rattle.acn_firsts.specs.Placed.{noted_at};
ghost use Rattle.acn_index.specs.World.{world_from};
ghost use Rattle.acn_index.specs.Keyed as spec;

use crate::lookup::imports_of;
use crate::references::name_of;
use acn_acn_syntax::{AcnEntry, AcnModule, MapTable};
use acn_asn_syntax::{AsnModule, Assign, Import};
use acn_firsts::Firsts;
use acn_num::{NoMemory, Row};
use std::alloc::Global;

/// The first places of names in an ASN.1 module.
#[derive(Drop)]
pub struct OwnNames {
    /// Of assignments, by their names.
    pub names: Firsts,
    /// Of the assignments of types alone.
    pub types: Firsts,
    /// Of the assignments of values alone.
    pub values: Firsts,
    /// Of imports, by each name that they bring.
    pub imports: Firsts,
}

/// The first places of names in all files.
#[derive(Drop)]
pub struct Maps {
    /// Of ASN.1 modules.
    pub modules: Firsts,
    /// In each ASN.1 module.
    pub own: Row<OwnNames>,
    /// Of ACN modules.
    pub acn: Firsts,
    /// Of the entries of each ACN module.
    pub entries: Row<Firsts>,
    /// Of tables.
    pub tables: Firsts,
}

// The places of modules.
#[tactic(auto, unfolding(acn_firsts::specs::Placed::noted_all))]
fn modules_of(alloc: Global, modules: &[AsnModule]) -> Result<Firsts, NoMemory>
    ensures { IfOk result (λ all. all ≡ spec.firsts spec.module_name (map module_view modules.now)) }
{
    let mut all = Firsts::new(alloc);
    for (i, owner) in modules.iter().enumerate() {
        all.note(alloc, owner.name.bytes(), i)?;
    }
    Ok(all)
}

// The places of assignments.
#[tactic(auto, unfolding(acn_firsts::specs::Placed::noted_all))]
fn names_of(alloc: Global, items: &[Assign]) -> Result<Firsts, NoMemory>
    ensures { IfOk result (λ all. all ≡ spec.firsts spec.own_name (map assign_view items.now)) }
{
    let mut all = Firsts::new(alloc);
    for (i, item) in items.iter().enumerate() {
        all.note(alloc, name_of(item).bytes(), i)?;
    }
    Ok(all)
}

// Notes the name of a type.
#[tactic(auto, unfolding(acn_firsts::specs::Placed::noted_all))]
fn note_type(alloc: Global, item: &Assign, i: usize, all: &mut Firsts) -> Result<(), NoMemory>
    ensures { OnOk result (all.new ≡ noted_at all.old (spec.type_name (assign_view item.now)) i) }
{
    match item {
        Assign::TypeIs(name, _) => all.note(alloc, name.bytes(), i),
        Assign::ValueIs(_, _, _) => Ok(()),
    }
}

// The places of types.
#[tactic(auto, unfolding(acn_firsts::specs::Placed::noted_all))]
fn types_of(alloc: Global, items: &[Assign]) -> Result<Firsts, NoMemory>
    ensures { IfOk result (λ all. all ≡ spec.firsts spec.type_name (map assign_view items.now)) }
{
    let mut all = Firsts::new(alloc);
    for (i, item) in items.iter().enumerate() {
        note_type(alloc, item, i, &mut all)?;
    }
    Ok(all)
}

// Notes the name of a value.
#[tactic(auto, unfolding(acn_firsts::specs::Placed::noted_all))]
fn note_value(alloc: Global, item: &Assign, i: usize, all: &mut Firsts) -> Result<(), NoMemory>
    ensures { OnOk result (all.new ≡ noted_at all.old (spec.value_name (assign_view item.now)) i) }
{
    match item {
        Assign::TypeIs(_, _) => Ok(()),
        Assign::ValueIs(name, _, _) => all.note(alloc, name.bytes(), i),
    }
}

// The places of values.
#[tactic(auto, unfolding(acn_firsts::specs::Placed::noted_all))]
fn values_of(alloc: Global, items: &[Assign]) -> Result<Firsts, NoMemory>
    ensures { IfOk result (λ all. all ≡ spec.firsts spec.value_name (map assign_view items.now)) }
{
    let mut all = Firsts::new(alloc);
    for (i, item) in items.iter().enumerate() {
        note_value(alloc, item, i, &mut all)?;
    }
    Ok(all)
}

// The places of imports, by each name that they bring.
#[tactic(auto, unfolding(acn_firsts::specs::Placed::noted_all))]
fn imported_of(alloc: Global, imports: &[Import]) -> Result<Firsts, NoMemory>
    ensures { IfOk result (λ all. all ≡ spec.firsts spec.import_names imports.now) }
{
    let mut all = Firsts::new(alloc);
    for (i, import) in imports.iter().enumerate() {
        all.note_all(alloc, import.names.items(), i)?;
    }
    Ok(all)
}

// The places in a module.
fn own_names(alloc: Global, owner: &AsnModule) -> Result<OwnNames, NoMemory>
    ensures { IfOk result (λ own. own ≡ spec.own_names (module_view owner.now)) }
{
    let names = names_of(alloc, owner.items.items())?;
    let types = types_of(alloc, owner.items.items())?;
    let values = values_of(alloc, owner.items.items())?;
    let imports = imported_of(alloc, imports_of(owner))?;
    Ok(OwnNames {
        names,
        types,
        values,
        imports,
    })
}

// The places in each module.
fn all_own_names(alloc: Global, modules: &[AsnModule]) -> Result<Row<OwnNames>, NoMemory>
    ensures { IfOk result (λ all. all ≡ map spec.own_names (map module_view modules.now)) }
{
    let mut all = Row::new(alloc);
    for owner in modules {
        all.push(own_names(alloc, owner)?)?;
    }
    Ok(all)
}

// The places of ACN modules.
#[tactic(auto, unfolding(acn_firsts::specs::Placed::noted_all))]
fn acn_of(alloc: Global, modules: &[AcnModule]) -> Result<Firsts, NoMemory>
    ensures { IfOk result (λ all. all ≡ spec.firsts spec.acn_name (map module_of modules.now)) }
{
    let mut all = Firsts::new(alloc);
    for (i, owner) in modules.iter().enumerate() {
        all.note(alloc, owner.name.bytes(), i)?;
    }
    Ok(all)
}

// The places of entries.
#[tactic(auto, unfolding(acn_firsts::specs::Placed::noted_all))]
fn entries_of(alloc: Global, entries: &[AcnEntry]) -> Result<Firsts, NoMemory>
    ensures { IfOk result (λ all. all ≡ spec.firsts spec.entry_name (map entry_of entries.now)) }
{
    let mut all = Firsts::new(alloc);
    for (i, entry) in entries.iter().enumerate() {
        all.note(alloc, entry.name.bytes(), i)?;
    }
    Ok(all)
}

// The places of the entries of each module.
fn all_entries(alloc: Global, modules: &[AcnModule]) -> Result<Row<Firsts>, NoMemory>
    ensures { IfOk result (λ all. all ≡ map spec.entry_places (map module_of modules.now)) }
{
    let mut all = Row::new(alloc);
    for owner in modules {
        all.push(entries_of(alloc, owner.entries.items())?)?;
    }
    Ok(all)
}

// The places of tables.
#[tactic(auto, unfolding(acn_firsts::specs::Placed::noted_all))]
fn tables_of(alloc: Global, tables: &[MapTable]) -> Result<Firsts, NoMemory>
    ensures { IfOk result (λ all. all ≡ spec.firsts spec.table_name tables.now) }
{
    let mut all = Firsts::new(alloc);
    for (i, table) in tables.iter().enumerate() {
        all.note(alloc, table.name.bytes(), i)?;
    }
    Ok(all)
}

/// The first places of names in these modules and tables.
pub fn maps_of(
    alloc: Global,
    modules: &[AsnModule],
    acn: &[AcnModule],
    tables: &[MapTable],
) -> Result<Maps, NoMemory>
    ensures { IfOk result (λ maps. maps ≡ spec.maps_of (world_from modules.now acn.now tables.now)) }
{
    let module_places = modules_of(alloc, modules)?;
    let own = all_own_names(alloc, modules)?;
    let acn_places = acn_of(alloc, acn)?;
    let entries = all_entries(alloc, acn)?;
    let tables = tables_of(alloc, tables)?;
    Ok(Maps {
        modules: module_places,
        own,
        acn: acn_places,
        entries,
        tables,
    })
}
