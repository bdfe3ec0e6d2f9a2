ghost use Rattle.std.specs.Prelude.{◌≡◌, ◌++◌, ◌∷◌, [], List, ℕ, ℤ, None, false, IfErr, IfOk, OnOk, MatchOption, Option, is_some, true};
ghost use Rattle.acn_grammar.specs.Asks.{Ask as Wanted, same_name};
ghost use Rattle.acn_grammar.specs.AsksOn.{Meetable, LeastAnswer};
ghost use Rattle.acn_grammar.specs.Faults.{ask_of};
ghost use Rattle.acn_asks.specs.Kept.{Keeps};
ghost use Rattle.acn_asks.specs.declared.asked.Unmet.TheVariants;
ghost use Rattle.acn_grammar.specs.Grammar.{Grammar};
ghost use Rattle.acn_asks.specs.Judged.{Judged, JudgesOneMore, FirstConflict};
ghost use Rattle.acn_asks.specs.Heard.{Hears, Declines, DeclinesFirst, kept_of};

use crate::asked::{Asked, Unmet};
use acn_grammar::Ask;
use acn_num::RangeSet;
use indexmap::IndexMap;
use std::alloc::Global;
use std::marker::Model;

/// What a walk over a packet has asked of its fields so far, each field by its path in the packet. Contracts see it as a
/// list of paths, each with what is kept of the asks of its field.
#[derive(Drop)]
pub struct Heard {
    fields: IndexMap<Vec<u32>, Asked>,
}

impl Model for Heard {
    ghost use Rattle.std.specs.Prelude.{List, ℕ, map};
    ghost use Rattle.acn_asks.specs.declared.asked.Asked.{Asked};

    ghost Value = { List (List ℕ × Asked) };

    ghost view = { λ heard. map (λ e. (e.0.items, e.1)) heard.fields.entries };
}

// A first ask of a field.
fn first(alloc: Global, set: &RangeSet, wanted: &Ask) -> Result<Asked, Unmet>
    ensures kept { IfOk result (λ asked. Keeps set.now (ask_of wanted.now ∷ []) asked) }
    ensures refused { IfErr result (λ unmet. DeclinesFirst set.now (ask_of wanted.now) unmet) }
{
    match Asked::new(alloc, set) {
        None => Err(Unmet::Conflict { earlier: None }),
        Some(asked) => {
            let mut asked = asked;
            match asked.add(set, wanted) {
                Ok(()) => Ok(asked),
                Err(unmet) => Err(unmet),
            }
        }
    }
}

impl Heard {
    /// Nothing is asked yet. It takes no memory.
    pub fn new(alloc: Global) -> Heard
        ensures asks { (set : List (ℤ × ℤ)) (field : List ℕ) → Hears set [] result field }
        ensures judged { (root : Grammar) (slot_at : List ℕ → Option ℕ) → Judged root slot_at [] result }
    {
        Heard {
            fields: IndexMap::new(alloc),
        }
    }

    /// The least permitted number of the field at a path that meets all that was asked of it: without asks the least
    /// permitted one. None comes exactly where there is none. It takes no memory.
    pub fn least(&self, field: &[u32], set: &RangeSet) -> Option<i128>
        ensures { (wanted : List Wanted) → Hears set.now wanted self.now field.now → MatchOption result (Meetable set.now wanted → ⊥) (λ x. LeastAnswer set.now wanted x) }
    {
        match self.fields.get(field) {
            Some(asked) => Some(asked.least()),
            None => set.least_except(&[]),
        }
    }

    /// Adds an ask of the field at a path, behind those of this field that were heard before; nothing changes for another
    /// field. `Conflict` comes exactly where no permitted number meets it and them.
    pub fn hear(
        &mut self,
        alloc: Global,
        field: &[u32],
        set: &RangeSet,
        wanted: &Ask,
    ) -> Result<(), Unmet>
        ensures kept { OnOk result ((before : List Wanted) → Hears set.now before self.old field.now → Hears set.now (before ++ ask_of wanted.now ∷ []) self.new field.now) }
        ensures others { OnOk result ((other : List ℕ) → same_name field.now other ≡ false → kept_of other self.new ≡ kept_of other self.old) }
        ensures refused { IfErr result (λ unmet. Declines set.now self.old field.now (ask_of wanted.now) unmet) }
        ensures judged { OnOk result (JudgesOneMore set.now self.old self.new field.now (ask_of wanted.now)) }
        ensures conflict { IfErr result (λ unmet. FirstConflict set.now self.old field.now (ask_of wanted.now) unmet) }
    {
        if self.fields.contains_key(field) {
            self.hear_more(field, set, wanted)
        } else {
            self.hear_first(alloc, field, set, wanted)
        }
    }

    // Adds a first ask of a field.
    fn hear_first(
        &mut self,
        alloc: Global,
        field: &[u32],
        set: &RangeSet,
        wanted: &Ask,
    ) -> Result<(), Unmet>
        requires { kept_of field.now self.old ≡ None }
        ensures kept { OnOk result ((before : List Wanted) → Hears set.now before self.old field.now → Hears set.now (before ++ ask_of wanted.now ∷ []) self.new field.now) }
        ensures others { OnOk result ((other : List ℕ) → same_name field.now other ≡ false → kept_of other self.new ≡ kept_of other self.old) }
        ensures refused { IfErr result (λ unmet. Declines set.now self.old field.now (ask_of wanted.now) unmet) }
    {
        match first(alloc, set, wanted) {
            Ok(asked) => self.put(alloc, field, asked),
            Err(unmet) => Err(unmet),
        }
    }

    // Puts down what is kept of a field that wasn't heard of.
    fn put(&mut self, alloc: Global, field: &[u32], asked: Asked) -> Result<(), Unmet>
        requires { kept_of field.now self.old ≡ None }
        ensures ok { OnOk result (self.new ≡ self.old ++ (field.now, asked) ∷ []) }
        ensures err { IfErr result (λ unmet. unmet ≡ TheVariants.NoMemory) }
    {
        match Vec::from_slice(alloc, field) {
            Ok(field) => match self.fields.insert(field, asked) {
                Ok(_) => Ok(()),
                Err(_) => Err(Unmet::NoMemory),
            },
            Err(_) => Err(Unmet::NoMemory),
        }
    }

    // Adds an ask of a field that was heard of.
    fn hear_more(&mut self, field: &[u32], set: &RangeSet, wanted: &Ask) -> Result<(), Unmet>
        requires { is_some (kept_of field.now self.old) ≡ true }
        ensures kept { OnOk result ((before : List Wanted) → Hears set.now before self.old field.now → Hears set.now (before ++ ask_of wanted.now ∷ []) self.new field.now) }
        ensures others { OnOk result ((other : List ℕ) → same_name field.now other ≡ false → kept_of other self.new ≡ kept_of other self.old) }
        ensures refused { IfErr result (λ unmet. Declines set.now self.old field.now (ask_of wanted.now) unmet) }
    {
        match self.fields.get_mut(field) {
            Some(asked) => asked.add(set, wanted),
            None => Ok(()),
        }
    }
}
