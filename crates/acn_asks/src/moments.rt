ghost use Rattle.std.specs.Prelude.{◌≡◌, ◌++◌, ◌∷◌, [], List, ℕ, Option, OnOk, IfOk, IfErr, map};
ghost use Rattle.acn_grammar.specs.Asks as asks;
ghost use Rattle.acn_grammar.specs.Grammar.{Grammar};
ghost use Rattle.acn_asks.specs.Judged.{Judged};
ghost use Rattle.acn_asks.specs.Moments.{moment_of, IsOf, AreOf, StopsAt, HaltsAt, halted};

use crate::asked::Unmet;
use crate::heard::Heard;
use acn_grammar::{Ask, Sizing};
use acn_num::{RangeSet, Row};
use std::alloc::Global;

/// A moment of the walk over a value, in the order of the packet. (This profile's own.)
#[derive(Drop)]
pub enum Moment<'t> {
    /// The node at a path asks this of the field at another path of the packet, which says the number of a slot with these
    /// permitted numbers.
    Asks {
        path: Row<u32>,
        field: Row<u32>,
        slot: u32,
        set: &'t RangeSet,
        wanted: Ask,
    },
    /// The contents at a path take so many octets, of which these are permitted.
    Counts {
        path: Row<u32>,
        octets: u64,
        sizing: &'t Sizing,
    },
}

/// Why not all moments can be met.
#[derive(Clone, Copy)]
pub enum Halt {
    /// The moment at this place, from 0, is the first that can't be met after those before it: no permitted number meets
    /// what it asks and what was asked before of its field, where `earlier` is the `Equal` before it that contradicts it,
    /// else the `Avoid` that does; or its count of octets isn't permitted.
    Unmet { at: usize, earlier: Option<Ask> },
    /// Memory is wanting.
    NoMemory,
}

fn halt_at(at: usize, unmet: Unmet) -> Halt
    ensures { result ≡ halted at unmet }
{
    match unmet {
        Unmet::Conflict { earlier } => Halt::Unmet { at, earlier },
        Unmet::NoMemory => Halt::NoMemory,
    }
}

// Hears one moment more.
fn hear_moment(alloc: Global, heard: &mut Heard, moment: &Moment<'_>) -> Result<(), Unmet>
    ensures judged { OnOk result ((root : Grammar) (slot_at : List ℕ → Option ℕ) (before : List asks.Moment) → IsOf root slot_at moment.now → Judged root slot_at before heard.old → Judged root slot_at (before ++ moment_of moment.now ∷ []) heard.new) }
    ensures unmet { IfErr result (λ unmet. StopsAt moment.now heard.old unmet) }
{
    match moment {
        Moment::Asks {
            field,
            set,
            wanted,
            ..
        } => heard.hear(alloc, field.items(), set, wanted),
        Moment::Counts { octets, sizing, .. } => {
            if sizing.sizes.holds_natural(*octets) {
                Ok(())
            } else {
                Err(Unmet::Conflict { earlier: None })
            }
        }
    }
}

/// What the moments of a walk ask, where all can be met: `Heard` has the least number of each field. `Unmet` comes exactly
/// where one can't be met after those before it, with the first such.
pub fn hear_all(alloc: Global, moments: &[Moment<'_>]) -> Result<Heard, Halt>
    ensures judged { IfOk result (λ heard. (root : Grammar) (slot_at : List ℕ → Option ℕ) → AreOf root slot_at moments.now → Judged root slot_at (map moment_of moments.now) heard) }
    ensures unmet { IfErr result (λ halt. HaltsAt moments.now halt) }
{
    let mut heard = Heard::new(alloc);
    for (at, moment) in moments.iter().enumerate() {
        match hear_moment(alloc, &mut heard, moment) {
            Ok(()) => {}
            Err(unmet) => return Err(halt_at(at, unmet)),
        }
    }
    Ok(heard)
}
