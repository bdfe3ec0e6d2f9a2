//! What components ask beside their values.

ghost use Rattle.std.specs.Prelude.{◌≡◌, ◌<◌, ◌∷◌, ◌++◌, [], true, false, length, OnOk};
ghost use Rattle.acn_grammar.specs.Asks as asks;
ghost use Rattle.acn_grammar.specs.Grammar.{Grammar};
ghost use Rattle.acn_grammar.specs.Scoped.{PresenceIn};
ghost use Rattle.acn_grammar.specs.Tree.{holds};
ghost use Rattle.acn_grammar.specs.View.{data_of};
ghost use Rattle.acn_asking.specs.Uses.{OwnIn};
ghost use Rattle.acn_asking.specs.Gathered.{paths_of, slots_of, LeavesIn, Gathers};
ghost use Rattle.acn_num.specs.declared.limits.TheConstants.{MOST_STEPS};

use acn_asking::{Open, ask_own, ask_presence};
use acn_asks::Moment;
use acn_grammar::{Presence, Value};
use acn_num::{NoMemory, Path, Row};
use std::alloc::Global;

/// What the component at the path asks, which is there: its own number where it is a slot's, and its presence.
pub fn ask_there<'t>(
    alloc: Global,
    presence: &Presence,
    own: Option<u32>,
    v: &Value,
    path: &Path,
    slots: &[Open<'t>],
    gathered: &mut Row<Moment<'t>>,
) -> Result<(), NoMemory>
    requires own { OwnIn (holds (slots_of slots.now)) own }
    requires presence { PresenceIn (holds (slots_of slots.now)) presence.now }
    ensures { OnOk result ((root : Grammar) → LeavesIn root slots.now → Gathers root (asks.own_asks (paths_of slots.now) path.now own (data_of v.now) ++ asks.presence_asks (paths_of slots.now) path.now true presence.now) gathered.old gathered.new) }
{
    ask_own(alloc, path, slots, own, v, gathered)?;
    ask_presence(alloc, path, slots, true, presence, gathered)
}

/// What an absent component asks, at a step from the path: its presence.
pub fn ask_absent<'t>(
    alloc: Global,
    presence: &Presence,
    step: u32,
    path: &mut Path,
    slots: &[Open<'t>],
    gathered: &mut Row<Moment<'t>>,
) -> Result<(), NoMemory>
    requires room { length path.old < MOST_STEPS }
    requires presence { PresenceIn (holds (slots_of slots.now)) presence.now }
    ensures said { OnOk result ((root : Grammar) → LeavesIn root slots.now → Gathers root (asks.presence_asks (paths_of slots.now) (path.old ++ step ∷ []) false presence.now) gathered.old gathered.new) }
    ensures path { OnOk result (path.new ≡ path.old) }
{
    path.push(step);
    ask_presence(alloc, path, slots, false, presence, gathered)?;
    path.pop();
    Ok(())
}
