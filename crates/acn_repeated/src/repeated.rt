ghost use Rattle.std.specs.Prelude.{◌≡◌, [], ◌∷◌, ◌++◌, map, OnOk, IfOk};
ghost use Rattle.acn_asn_syntax.specs.View.{assign_view, module_view, type_view};
ghost use Rattle.acn_index.specs.World as world;
ghost use Rattle.acn_world.specs.Repeated as spec;
ghost use Rattle.acn_repeated.specs.Named.{names_view};
ghost use Rattle.acn_repeated.specs.Blamed.{blames_view};

use crate::blame::{Blame, Kind, push_blames};
use crate::lists::push_imports;
use crate::seen::{Seen, nothing_seen, push_again, push_repeated_behind, see};
use crate::twice_types::push_twice;
use acn_asn_syntax::{AsnModule, AsnType, Assign};
use acn_index::lookup::imports_of;
use acn_index::references::name_of;
use acn_num::{Name, NoMemory};
use std::alloc::Global;

// The type of an assignment.
fn type_of(item: &Assign) -> &AsnType
    ensures { type_view result.now ≡ world.type_of_assign (assign_view item.now) }
{
    match item {
        Assign::TypeIs(_, of) => of,
        Assign::ValueIs(_, of, _) => of,
    }
}

// Adds what an assignment gives twice, and sees its name.
fn push_twice_assign<'t>(
    alloc: Global,
    item: &'t Assign,
    seen: &mut Seen<'t>,
    all: &mut Vec<&'t Name>,
) -> Result<(), NoMemory>
    ensures all { OnOk result (names_view all.new.items ≡ names_view all.old.items ++ (spec.again (world.name_of (assign_view item.now)) seen.old ++ spec.twice (world.type_of_assign (assign_view item.now)))) }
    ensures seen { OnOk result (seen.new ≡ seen.old ++ world.name_of (assign_view item.now) ∷ []) }
{
    push_again(name_of(item), seen, all)?;
    push_twice(alloc, type_of(item), all)?;
    see(name_of(item), seen)?;
    Ok(())
}

// Adds what assignments give twice, behind the names that were seen.
#[tactic(auto, unfolding(acn_world::specs::Repeated::twice_items))]
fn push_twice_assigns<'t>(
    alloc: Global,
    items: &'t [Assign],
    seen: &mut Seen<'t>,
    all: &mut Vec<&'t Name>,
) -> Result<(), NoMemory>
    ensures { OnOk result (names_view all.new.items ≡ names_view all.old.items ++ spec.twice_items seen.old (map assign_view items.now)) }
{
    for item in items {
        push_twice_assign(alloc, item, seen, all)?;
    }
    Ok(())
}

// Adds what a module gives twice.
#[tactic(auto, unfolding(acn_world::specs::Repeated::twice_module))]
fn push_twice_module<'t>(
    alloc: Global,
    owner: &'t AsnModule,
    all: &mut Vec<&'t Name>,
) -> Result<(), NoMemory>
    ensures { OnOk result (names_view all.new.items ≡ names_view all.old.items ++ spec.twice_module (module_view owner.now)) }
{
    let mut names = Vec::new(alloc);
    push_imports(imports_of(owner), &mut names)?;
    let mut seen = nothing_seen(alloc);
    push_repeated_behind(names.as_slice(), &mut seen, all)?;
    push_twice_assigns(alloc, owner.items.items(), &mut seen, all)?;
    Ok(())
}

// Adds the faults of a module, and sees its name.
fn push_module<'t>(
    alloc: Global,
    owner: &'t AsnModule,
    seen: &mut Seen<'t>,
    all: &mut Vec<Blame<'t>>,
) -> Result<(), NoMemory>
    ensures all { OnOk result (blames_view all.new.items ≡ blames_view all.old.items ++ spec.repeats_of owner.now.name (spec.again owner.now.name seen.old ++ spec.twice_module (module_view owner.now))) }
    ensures seen { OnOk result (seen.new ≡ seen.old ++ owner.now.name ∷ []) }
{
    let mut names = Vec::new(alloc);
    push_again(&owner.name, seen, &mut names)?;
    push_twice_module(alloc, owner, &mut names)?;
    push_blames(Kind::Repeated, &owner.name, names.as_slice(), all)?;
    see(&owner.name, seen)?;
    Ok(())
}

/// Adds the faults of ASN.1 modules, behind the modules that were seen.
#[tactic(auto, unfolding(acn_world::specs::Repeated::asn_repeats))]
pub fn push_modules<'t>(
    alloc: Global,
    modules: &'t [AsnModule],
    seen: &mut Seen<'t>,
    all: &mut Vec<Blame<'t>>,
) -> Result<(), NoMemory>
    ensures { OnOk result (blames_view all.new.items ≡ blames_view all.old.items ++ spec.asn_repeats seen.old (map module_view modules.now)) }
{
    for owner in modules {
        push_module(alloc, owner, seen, all)?;
    }
    Ok(())
}
