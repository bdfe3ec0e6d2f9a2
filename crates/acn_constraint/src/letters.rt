ghost use Rattle.std.specs.Prelude.{◌≡◌, IfOk, pos};
ghost use Rattle.acn_constraint.specs.Sets as sets;
ghost use Rattle.acn_set_elements.specs.Written.{unquoted};

use crate::span::single;
use acn_num::{NoMemory, RangeSet};
use acn_set_elements::next_character;
use std::alloc::Global;

// One character.
fn letter(alloc: Global, octet: u8) -> Result<RangeSet, NoMemory>
    ensures { IfOk result (λ s. s ≡ sets.one (pos octet)) }
{
    single(alloc, &i128::from(octet))
}

/// The characters of a text, from its token.
pub fn letters(alloc: Global, token: &[u8]) -> Result<RangeSet, NoMemory>
    ensures { IfOk result (λ s. s ≡ sets.letters (unquoted token.now)) }
{
    let mut found = RangeSet::empty(alloc);
    let last = token.len().saturating_sub(1);
    let mut at = 1;
    while at < last {
        let one = letter(alloc, token[at])?;
        found = found.union(alloc, &one)?;
        at = next_character(token, at);
    }
    Ok(found)
}
