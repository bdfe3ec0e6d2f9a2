//! Whether names differ, by their order: the same ones are neighbours there.
ghost use Rattle.std.specs.Prelude.{◌≡◌, drop, map};
ghost use Rattle.acn_grammar.specs.Asks.{same_name};
ghost use Rattle.acn_grammar.specs.Leaves.{all_differ};
ghost use Rattle.acn_leaf.specs.Neighbours as spec;

use crate::leaf_rules::same_text;

// Whether the first of the names behind a name is the same.
fn is_next(name: &[u8], behind: &[&[u8]]) -> bool
    ensures { result ≡ spec.is_next same_name name.now (map (λ other. other.now) behind.now) }
{
    match behind.first() {
        Some(other) => same_text(name, other),
        None => false,
    }
}

// Whether no two neighbours are the same.
fn neighbours_differ(names: &[&[u8]]) -> bool
    ensures { result ≡ spec.neighbours_differ same_name (map (λ name. name.now) names.now) }
{
    for at in 0..names.len() {
        if is_next(names[at], &names[at + 1..]) {
            return false;
        }
    }
    true
}

/// Whether no two of the names are the same. It sorts them, and takes no memory.
pub fn names_differ(names: &mut [&[u8]]) -> bool
    ensures { result ≡ all_differ same_name (map (λ name. name.now) names.old) }
{
    names.sort_unstable();
    neighbours_differ(names)
}
