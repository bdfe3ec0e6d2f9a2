ghost use Rattle.std.specs.Prelude.{◌≡◌, [], ◌∷◌, ◌++◌, map, flat_map, OnOk, IfOk};
ghost use Rattle.acn_asn_syntax.specs.View.{module_view};
ghost use Rattle.acn_acn_syntax.specs.View.{module_of};
ghost use Rattle.acn_index.specs.Views.{index_view};
ghost use Rattle.acn_world.specs.Repeated.{when};
ghost use Rattle.acn_world.specs.Unknown as spec;
ghost use Rattle.acn_repeated.specs.Named.{names_view};
ghost use Rattle.acn_repeated.specs.Blamed.{blames_view};

use acn_acn_syntax::AcnModule;
use acn_asn_syntax::{AsnModule, Import};
use acn_index::index::Index;
use acn_index::lookup::{imports_of, module_named};
use acn_num::{Name, NoMemory};
use acn_repeated::{Blame, Kind, push_blames};
use std::alloc::Global;

// Adds the name, where no ASN.1 module has it.
fn push_missing<'t>(index: &Index, name: &'t Name, all: &mut Vec<&'t Name>) -> Result<(), NoMemory>
    ensures { OnOk result (names_view all.new.items ≡ names_view all.old.items ++ when (spec.is_no_module (index_view index.now) name.now) name.now) }
{
    if module_named(index, name.bytes()).is_none() {
        all.push(name)?;
    }
    Ok(())
}

// Adds the modules of imports that aren't there.
fn push_imports<'t>(
    index: &Index,
    imports: &'t [Import],
    all: &mut Vec<&'t Name>,
) -> Result<(), NoMemory>
    ensures { OnOk result (names_view all.new.items ≡ names_view all.old.items ++ flat_map (λ n. when (spec.is_no_module (index_view index.now) n) n) (map (λ i. i.module) imports.now)) }
{
    for import in imports {
        push_missing(index, &import.module, all)?;
    }
    Ok(())
}

// Adds the faults of a module.
fn push_module<'t>(
    alloc: Global,
    index: &Index,
    owner: &'t AsnModule,
    all: &mut Vec<Blame<'t>>,
) -> Result<(), NoMemory>
    ensures { OnOk result (blames_view all.new.items ≡ blames_view all.old.items ++ spec.missing_of (index_view index.now) owner.now.name (spec.import_modules (module_view owner.now))) }
{
    let mut names = Vec::new(alloc);
    push_imports(index, imports_of(owner), &mut names)?;
    push_blames(Kind::NoModule, &owner.name, names.as_slice(), all)?;
    Ok(())
}

/// Adds the faults of the ASN.1 modules.
pub fn push_missing_modules<'t>(
    alloc: Global,
    index: &Index,
    modules: &'t [AsnModule],
    all: &mut Vec<Blame<'t>>,
) -> Result<(), NoMemory>
    ensures { OnOk result (blames_view all.new.items ≡ blames_view all.old.items ++ flat_map (λ m. spec.missing_of (index_view index.now) m.name (spec.import_modules m)) (map module_view modules.now)) }
{
    for owner in modules {
        push_module(alloc, index, owner, all)?;
    }
    Ok(())
}

// Adds the fault of an ACN module.
fn push_acn_module<'t>(
    alloc: Global,
    index: &Index,
    owner: &'t AcnModule,
    all: &mut Vec<Blame<'t>>,
) -> Result<(), NoMemory>
    ensures { OnOk result (blames_view all.new.items ≡ blames_view all.old.items ++ spec.missing_of (index_view index.now) owner.now.name (owner.now.name ∷ [])) }
{
    let mut names = Vec::new(alloc);
    push_missing(index, &owner.name, &mut names)?;
    push_blames(Kind::NoModule, &owner.name, names.as_slice(), all)?;
    Ok(())
}

/// Adds the faults of the ACN modules.
pub fn push_missing_acn<'t>(
    alloc: Global,
    index: &Index,
    modules: &'t [AcnModule],
    all: &mut Vec<Blame<'t>>,
) -> Result<(), NoMemory>
    ensures { OnOk result (blames_view all.new.items ≡ blames_view all.old.items ++ flat_map (λ a. spec.missing_of (index_view index.now) a.name (a.name ∷ [])) (map module_of modules.now)) }
{
    for owner in modules {
        push_acn_module(alloc, index, owner, all)?;
    }
    Ok(())
}
