//! Whether numbers differ, by their order: the same ones are neighbours there.
ghost use Rattle.std.specs.Prelude.{◌≡◌};
ghost use Rattle.std.specs.Ordering.{int_eq};
ghost use Rattle.acn_grammar.specs.Leaves.{all_differ};
ghost use Rattle.acn_leaf.specs.Neighbours as spec;

// Whether the numbers are the same.
fn is_number(a: &i128, b: &i128) -> bool
    ensures { result ≡ int_eq a.now b.now }
{
    *a == *b
}

// Whether the first of the numbers behind one is the same.
fn is_next(number: &i128, behind: &[i128]) -> bool
    ensures { result ≡ spec.is_next int_eq number.now behind.now }
{
    match behind.first() {
        Some(other) => is_number(number, other),
        None => false,
    }
}

// Whether no two neighbours are the same.
fn neighbours_differ(numbers: &[i128]) -> bool
    ensures { result ≡ spec.neighbours_differ int_eq numbers.now }
{
    for at in 0..numbers.len() {
        if is_next(&numbers[at], &numbers[at + 1..]) {
            return false;
        }
    }
    true
}

/// Whether no two of the numbers are the same. It sorts them, and takes no memory.
pub fn numbers_differ(numbers: &mut [i128]) -> bool
    ensures { result ≡ all_differ int_eq numbers.old }
{
    numbers.sort_unstable();
    neighbours_differ(numbers)
}
