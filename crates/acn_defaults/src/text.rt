//! The texts behind DEFAULT.

ghost use Rattle.std.specs.Prelude.{◌≡◌, ◌&&◌, List, ℕ, length, option_map, pos, IfOk};
ghost use Rattle.std.specs.List.{list_all};
ghost use Rattle.std.specs.Borrow.{Bor};
ghost use Rattle.acn_num.specs.Ranges.{has};
ghost use Rattle.acn_set_elements.specs.Written.{unquoted};
ghost use Rattle.acn_defaults.specs.Defaults as spec;

use acn_grammar::Pattern;
use acn_num::{NoMemory, RangeSet};
use acn_set_elements::next_character;
use acn_terminators::first_end;
use std::alloc::Global;

// The characters of a text, from its token.
fn characters(alloc: Global, token: &[u8]) -> Result<Vec<u8>, NoMemory>
    ensures { IfOk result (λ cs. cs.items ≡ unquoted token.now) }
{
    let mut found = Vec::new(alloc);
    let last = token.len().saturating_sub(1);
    let mut at = 1;
    while at < last {
        found.push(token[at])?;
        at = next_character(token, at);
    }
    Ok(found)
}

// Whether each character is permitted.
fn are_permitted(permitted: &RangeSet, text: &[u8]) -> bool
    ensures { result ≡ list_all (λ c. has permitted.now (pos c)) text.now }
{
    for c in text {
        if !permitted.holds_natural(u64::from(*c)) {
            return false;
        }
    }
    true
}

// Whether a text ends where its terminator first stands.
fn ends_well(end: &Option<Pattern>, text: &[u8]) -> bool
    ensures { result ≡ spec.ends_well end.now text.now }
{
    match end {
        None => true,
        Some(end) => !first_end(end, text).is_some(),
    }
}

// Whether the size of a text is permitted.
fn is_sized(sizes: &RangeSet, text: &[u8]) -> bool
    ensures { result ≡ has sizes.now (pos (length text.now)) }
{
    sizes.holds_natural(text.len() as u64)
}

// Whether a text has a permitted size and permitted characters, and ends where its terminator first stands.
fn is_fit(sizes: &RangeSet, permitted: &RangeSet, end: &Option<Pattern>, text: &[u8]) -> bool
    ensures { result ≡ (has sizes.now (pos (length text.now)) && (list_all (λ c. has permitted.now (pos c)) text.now && spec.ends_well end.now text.now)) }
{
    is_sized(sizes, text) && (are_permitted(permitted, text) && ends_well(end, text))
}

/// The same of a text that is given by its token, where there is one.
pub fn permits_text(
    alloc: Global,
    sizes: &RangeSet,
    permitted: &RangeSet,
    end: &Option<Pattern>,
    token: Option<&[u8]>,
) -> Result<bool, NoMemory>
    ensures { IfOk result (λ permits. permits ≡ spec.permits_text sizes.now permitted.now end.now (option_map (λ (t : Bor (List ℕ)). unquoted t.now) token.entry)) }
{
    match token {
        None => Ok(false),
        Some(token) => {
            let text = characters(alloc, token)?;
            Ok(is_fit(sizes, permitted, end, text.as_slice()))
        }
    }
}
