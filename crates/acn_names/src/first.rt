ghost use Rattle.std.specs.Prelude.{◌≡◌, option_map, option_copied, IfOk};
ghost use Rattle.acn_world.specs.Faults as spec;
ghost use Rattle.acn_world.specs.declared.fault.NameFault.TheVariants as fault;
ghost use Rattle.acn_repeated.specs.Named.{names_view};
ghost use Rattle.acn_repeated.specs.Blamed.{blame_view, blames_view, fault_of as fault_by};

use acn_num::{Name, NoMemory};
use acn_repeated::{Blame, Kind};
use acn_world::NameFault;
use std::alloc::Global;

/// The first name.
pub fn first_name<'t>(all: &[&'t Name]) -> Option<&'t Name>
    ensures { option_copied result ≡ spec.first (names_view all.now) }
{
    if all.is_empty() {
        return None;
    }
    Some(all[0])
}

/// The first fault.
pub fn first_blame<'w>(all: &[Blame<'w>]) -> Option<Blame<'w>>
    ensures { option_map blame_view result ≡ spec.first (blames_view all.now) }
{
    if all.is_empty() {
        return None;
    }
    let blame = all[0];
    Some(blame)
}

/// The fault of a name, where there is one.
pub fn blamed<'w>(kind: Kind, owner: &'w Name, found: Option<&'w Name>) -> Option<Blame<'w>>
    ensures { option_map blame_view result ≡ option_map (fault_by kind owner.now) (option_copied found.entry) }
{
    match found {
        None => None,
        Some(name) => Some(Blame { kind, owner, name }),
    }
}

/// The fault with names of its own.
pub fn fault_of(alloc: Global, blame: Blame<'_>) -> Result<NameFault, NoMemory>
    ensures { IfOk result (λ f. f ≡ blame_view blame.entry) }
{
    let module = Name::copy(alloc, blame.owner.bytes())?;
    let name = Name::copy(alloc, blame.name.bytes())?;
    Ok(match blame.kind {
        Kind::Unknown => NameFault::Unknown { module, name },
        Kind::Repeated => NameFault::Repeated { module, name },
        Kind::NoModule => NameFault::NoModule { module, name },
        Kind::WrongKind => NameFault::WrongKind { module, name },
    })
}

/// The same, where there is a fault.
pub fn fault_where(alloc: Global, found: Option<Blame<'_>>) -> Result<Option<NameFault>, NoMemory>
    ensures { IfOk result (λ f. f ≡ option_map blame_view found.entry) }
{
    match found {
        None => Ok(None),
        Some(blame) => {
            let fault = fault_of(alloc, blame)?;
            Ok(Some(fault))
        }
    }
}
