ghost use Rattle.std.specs.Prelude.{◌≡◌, [], ◌∷◌, ◌++◌, OnOk, OnErr};
ghost use Rattle.acn_world.specs.Repeated as spec;
ghost use Rattle.acn_repeated.specs.Named.{names_view};

use acn_firsts::Firsts;
use acn_num::{Name, NoMemory};
use std::alloc::Global;
use std::marker::Model;

/// The names that stand before a place, which contracts see as their list in the order of the text.
#[derive(Drop)]
pub struct Seen<'t> {
    alloc: Global,
    names: Vec<&'t Name>,
    // Which names these are, each once.
    firsts: Firsts,
}

impl<'t> Model for Seen<'t> {
    ghost use Rattle.std.specs.Prelude.{◌≡◌, List, ℕ, []};
    ghost use Rattle.acn_firsts.specs.Placed.{noted_at};
    ghost use Rattle.acn_repeated.specs.Named.{names_view};

    ghost Value = { List (List ℕ) };

    ghost view = { λ seen. names_view seen.names.items };

    ghost invariant = { λ seen. seen.firsts ≡ noted_at [] (names_view seen.names.items) 0 };
}

// Whether the name is one of these.
fn is_among(name: &[u8], seen: &Seen<'_>) -> bool
    ensures { result ≡ spec.is_among name.now seen.now }
{
    seen.firsts.get(name).is_some()
}

/// No names.
#[tactic(auto, unfolding(acn_firsts::specs::Placed::noted_all))]
pub fn nothing_seen<'t>(alloc: Global) -> Seen<'t>
    ensures { result ≡ [] }
{
    Seen {
        alloc,
        names: Vec::new(alloc),
        firsts: Firsts::new(alloc),
    }
}

/// One name more. Where memory fails nothing is added.
pub fn see<'t>(name: &'t Name, seen: &mut Seen<'t>) -> Result<(), NoMemory>
    ensures ok { OnOk result (seen.new ≡ seen.old ++ name.now ∷ []) }
    ensures err { OnErr result (seen.new ≡ seen.old) }
{
    seen.names.push(name)?;
    match seen.firsts.note(seen.alloc, name.bytes(), 0) {
        Ok(()) => Ok(()),
        Err(fault) => {
            let _last = seen.names.pop();
            Err(fault)
        }
    }
}

/// Adds the name to all, where it is one of those before it.
pub fn push_again<'t>(
    name: &'t Name,
    seen: &Seen<'_>,
    all: &mut Vec<&'t Name>,
) -> Result<(), NoMemory>
    ensures { OnOk result (names_view all.new.items ≡ names_view all.old.items ++ spec.again name.now seen.now) }
{
    if is_among(name.bytes(), seen) {
        all.push(name)?;
    }
    Ok(())
}

/// Adds the names that repeat one before them or one that was seen, and sees them.
#[tactic(auto, unfolding(acn_world::specs::Repeated::repeated))]
pub fn push_repeated_behind<'t>(
    names: &[&'t Name],
    seen: &mut Seen<'t>,
    all: &mut Vec<&'t Name>,
) -> Result<(), NoMemory>
    ensures all { OnOk result (names_view all.new.items ≡ names_view all.old.items ++ spec.repeated seen.old (names_view names.now)) }
    ensures seen { OnOk result (seen.new ≡ seen.old ++ names_view names.now) }
{
    for name in names {
        push_again(name, seen, all)?;
        see(name, seen)?;
    }
    Ok(())
}

/// Adds the names that repeat one before them.
pub fn push_repeated<'t>(
    alloc: Global,
    names: &[&'t Name],
    all: &mut Vec<&'t Name>,
) -> Result<(), NoMemory>
    ensures { OnOk result (names_view all.new.items ≡ names_view all.old.items ++ spec.repeated [] (names_view names.now)) }
{
    let mut seen = nothing_seen(alloc);
    push_repeated_behind(names, &mut seen, all)
}
