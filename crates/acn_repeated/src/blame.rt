ghost use Rattle.std.specs.Prelude.{◌≡◌, ◌++◌, map, OnOk};
ghost use Rattle.acn_repeated.specs.Named.{names_view};
ghost use Rattle.acn_repeated.specs.Blamed.{fault_of, blames_view};

use acn_num::{Name, NoMemory};

/// A kind of fault that a list of names in the text tells.
#[derive(Clone, Copy, PartialEq, Eq)]
pub enum Kind {
    /// A reference that names nothing.
    Unknown,
    /// A name that is given twice.
    Repeated,
    /// A module that isn't there.
    NoModule,
    /// A reference to what is of another kind.
    WrongKind,
}

/// A fault, with the module in whose text the name stands.
#[derive(Clone, Copy)]
pub struct Blame<'w> {
    pub kind: Kind,
    pub owner: &'w Name,
    pub name: &'w Name,
}

/// Adds a fault of one kind for each name.
pub fn push_blames<'w>(
    kind: Kind,
    owner: &'w Name,
    names: &[&'w Name],
    all: &mut Vec<Blame<'w>>,
) -> Result<(), NoMemory>
    ensures { OnOk result (blames_view all.new.items ≡ blames_view all.old.items ++ map (fault_of kind owner.now) (names_view names.now)) }
{
    for name in names {
        all.push(Blame {
            kind,
            owner,
            name: *name,
        })?;
    }
    Ok(())
}
