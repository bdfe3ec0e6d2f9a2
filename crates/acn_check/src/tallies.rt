ghost use Rattle.std.specs.Prelude.{◌≡◌, ◌++◌, map, option_to_list, IfOk};
ghost use Rattle.std.specs.List.{flat_map};
ghost use Rattle.acn_grammar.specs.Walk.{condition};
ghost use Rattle.acn_check.specs.Facts.{facts_of};
ghost use Rattle.acn_check.specs.First as spec;
ghost use Rattle.acn_check.specs.First.{tallied, tallied_one, uses_of, no_tallies};
ghost use Rattle.acn_check.specs.Program.{use_of, tally_of};

use crate::lines::Line;
use crate::uses::{Use, body_use, slot_named};
use acn_num::NoMemory;
use acn_tree::Test;
use std::alloc::Global;

/// What uses say of a slot: whether one names it, and how many conditions compare it with a number,
/// up to the greatest number of 32 bits.
#[derive(Clone, Copy, Drop)]
pub struct Tally {
    pub used: bool,
    pub equals: u32,
}

fn raised(tally: Tally, named: Use) -> Tally
    ensures { tally_of result ≡ spec.raised (use_of named) (tally_of tally) }
{
    let equals = match named {
        Use::Condition(Test::Equals(_, _)) => tally.equals.saturating_add(1),
        _ => tally.equals,
    };
    Tally { used: true, equals }
}

fn note(tallies: &mut Vec<Tally>, named: Use)
    ensures { map tally_of tallies.new.items ≡ tallied_one (map tally_of tallies.old.items) (use_of named) }
{
    let slot = slot_named(named) as usize;
    if slot < tallies.len() {
        tallies[slot] = raised(tallies[slot], named);
    }
}

fn note_tests(tallies: &mut Vec<Tally>, tests: &[Test])
    ensures { map tally_of tallies.new.items ≡ tallied (map tally_of tallies.old.items) (map condition tests.now) }
{
    for test in tests {
        note(tallies, Use::Condition(*test));
    }
}

fn note_line(tallies: &mut Vec<Tally>, line: &Line)
    ensures { map tally_of tallies.new.items ≡ tallied (map tally_of tallies.old.items) (uses_of (facts_of line.now)) }
{
    note_tests(tallies, line.tag.tests);
    if let Some(named) = body_use(line.body) {
        note(tallies, named);
    }
}

fn blank(alloc: Global, slots: usize) -> Result<Vec<Tally>, NoMemory>
    ensures { IfOk result (λ tallies. map tally_of tallies.items ≡ no_tallies slots) }
{
    let mut tallies = Vec::new(alloc);
    for _slot in 0..slots {
        tallies.push(Tally {
            used: false,
            equals: 0,
        })?;
    }
    Ok(tallies)
}

/// What all uses say of each slot.
pub fn count_uses(alloc: Global, lines: &[Line], slots: usize) -> Result<Vec<Tally>, NoMemory>
    ensures { IfOk result (λ tallies. map tally_of tallies.items ≡ tallied (no_tallies slots) (flat_map uses_of (map facts_of lines.now))) }
{
    let mut tallies = blank(alloc, slots)?;
    for line in lines {
        note_line(&mut tallies, line);
    }
    Ok(tallies)
}
