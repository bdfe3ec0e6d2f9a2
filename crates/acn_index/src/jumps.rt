ghost use Rattle.std.specs.Prelude.{◌≡◌, map, List, slice_get, option_map, OnOk, IfOk};
ghost use Rattle.std.specs.Borrow.{Bor};
ghost use Rattle.acn_num.specs.declared.name.Name.{Name};
ghost use Rattle.acn_index.specs.Views.{index_view};
ghost use Rattle.acn_index.specs.Steps as spec;

use crate::index::Index;
use crate::lookup::{Sort, imported_from, imports_of, own};
use acn_asn_syntax::{AsnModule, Import};
use acn_ends::{Ends, Spot, Steps, ends_of};
use acn_firsts::Firsts;
use acn_num::{Name, NoMemory};
use std::alloc::Global;

/// The numbers of the names that are imported, and where the imports of each end.
#[derive(Drop)]
pub struct Jumps {
    /// The number of each name.
    pub numbers: Firsts,
    /// The ends, by the numbers of a module and of a name.
    pub ends: Ends,
}

// The names that are imported, by number, and the modules that import them.
#[derive(Drop)]
struct Imported<'w> {
    numbers: Firsts,
    names: Vec<&'w Name>,
    spots: Vec<Spot>,
}

// The step to the module from which a module that has no assignment of the name imports it.
fn import_onward(index: &Index, from: Spot, name: &[u8]) -> Option<Spot>
    ensures { result ≡ spec.import_onward (index_view index.now) from name.now }
{
    match own(index, Sort::Any, name, from.group) {
        Some(_) => None,
        None => {
            let group = imported_from(index, name, from.group)?;
            Some(Spot {
                group,
                item: from.item,
            })
        }
    }
}

// The name with this number.
fn name_at<'w>(names: &[&'w Name], number: u32) -> Option<&'w Name>
    ensures { option_map (λ n. n.now) result ≡ slice_get (spec.names_view names.now) number }
{
    names.get(number as usize).copied()
}

// The steps from module to module along imports.
#[derive(Clone, Copy)]
struct ImportSteps<'w> {
    index: &'w Index,
    names: &'w [&'w Name],
}

impl<'w> Steps for ImportSteps<'w> {
    ghost onward = { λ s p. spec.import_step (index_view s.index.now) (spec.names_view s.names.now) p };

    #[tactic(auto, unfolding(crate::specs::Steps::import_step))]
    fn step(&self, from: Spot) -> Option<Spot> {
        let name = name_at(self.names, from.item)?;
        import_onward(self.index, from, name.bytes())
    }
}

// Numbers a name, if it has no number yet.
fn number_name<'w>(alloc: Global, name: &'w Name, all: &mut Imported<'w>) -> Result<(), NoMemory>
    requires { spec.AreNumbered all.old.numbers (spec.names_view all.old.names.items) }
    ensures { OnOk result (spec.AreNumbered all.new.numbers (spec.names_view all.new.names.items)) }
{
    match all.numbers.get(name.bytes()) {
        Some(_) => Ok(()),
        None => {
            let number = all.names.as_slice().len();
            all.names.push(name)?;
            all.numbers.note(alloc, name.bytes(), number)
        }
    }
}

// The spot of a name that a module imports.
fn spot_of(module: usize, number: usize) -> Option<Spot> {
    let group = u32::try_from(module).ok()?;
    let item = u32::try_from(number).ok()?;
    Some(Spot { group, item })
}

// Adds that a module imports a name with this number.
fn push_spot(module: usize, number: usize, all: &mut Vec<Spot>) -> Result<(), NoMemory> {
    match spot_of(module, number) {
        None => {}
        Some(spot) => all.push(spot)?,
    }
    Ok(())
}

// Adds the names that an import of a module brings.
fn push_names<'w>(
    alloc: Global,
    module: usize,
    names: &'w [Name],
    all: &mut Imported<'w>,
) -> Result<(), NoMemory>
    requires { spec.AreNumbered all.old.numbers (spec.names_view all.old.names.items) }
    ensures { OnOk result (spec.AreNumbered all.new.numbers (spec.names_view all.new.names.items)) }
{
    for name in names {
        number_name(alloc, name, all)?;
        match all.numbers.get(name.bytes()) {
            None => {}
            Some(number) => push_spot(module, number, &mut all.spots)?,
        }
    }
    Ok(())
}

// Adds those of the imports of a module.
fn push_imports<'w>(
    alloc: Global,
    module: usize,
    imports: &'w [Import],
    all: &mut Imported<'w>,
) -> Result<(), NoMemory>
    requires { spec.AreNumbered all.old.numbers (spec.names_view all.old.names.items) }
    ensures { OnOk result (spec.AreNumbered all.new.numbers (spec.names_view all.new.names.items)) }
{
    for import in imports {
        push_names(alloc, module, import.names.items(), all)?;
    }
    Ok(())
}

// The names that the modules import.
fn imported_by<'w>(alloc: Global, modules: &'w [AsnModule]) -> Result<Imported<'w>, NoMemory>
    ensures { IfOk result (λ all. spec.AreNumbered all.numbers (spec.names_view all.names.items)) }
{
    let mut all = Imported {
        numbers: Firsts::new(alloc),
        names: Vec::new(alloc),
        spots: Vec::new(alloc),
    };
    for (k, owner) in modules.iter().enumerate() {
        push_imports(alloc, k, imports_of(owner), &mut all)?;
    }
    Ok(all)
}

// The ends of the imports of names that are numbered.
fn import_ends(alloc: Global, index: &Index, all: &Imported<'_>) -> Result<Ends, NoMemory>
    requires { spec.AreNumbered all.now.numbers (spec.names_view all.now.names.items) }
    ensures { IfOk result (spec.AreJumps (index_view index.now) all.now.numbers) }
{
    let steps = ImportSteps {
        index,
        names: all.names.as_slice(),
    };
    ends_of(alloc, &steps, all.spots.as_slice())
}

/// The numbers of the names that are imported, and where the imports of each end. Each import is passed a few times.
pub fn jumps_of(alloc: Global, index: &Index) -> Result<Jumps, NoMemory>
    ensures { IfOk result (λ found. spec.AreJumps (index_view index.now) found.numbers found.ends) }
{
    let all = imported_by(alloc, index.modules.items())?;
    let ends = import_ends(alloc, index, &all)?;
    let Imported {
        numbers,
        names,
        spots,
    } = all;
    drop(names);
    drop(spots);
    Ok(Jumps { numbers, ends })
}
