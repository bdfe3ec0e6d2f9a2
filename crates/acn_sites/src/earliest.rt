//! The earliest in the text of what was found.

ghost use Rattle.std.specs.Prelude.{◌≡◌};
ghost use Rattle.acn_sites.specs.Places as spec;

use acn_num::Row;

/// Whether the first place stands before the second in the text.
pub fn is_before(a: &[usize], b: &[usize]) -> bool
    ensures { result ≡ spec.is_before a.now b.now }
{
    for (i, x) in a.iter().enumerate() {
        match b.get(i) {
            None => return false,
            Some(y) => {
                if *x < *y {
                    return true;
                }
                if *x != *y {
                    return false;
                }
            }
        }
    }
    a.len() < b.len()
}

/// The one that stands before the other; the first of two at one place.
pub fn sooner<T: Drop>(
    best: Option<(Row<usize>, T)>,
    next: Option<(Row<usize>, T)>,
) -> Option<(Row<usize>, T)>
    ensures { result ≡ spec.sooner best next }
{
    match next {
        None => best,
        Some(next) => match best {
            None => Some(next),
            Some(best) => {
                if is_before(next.0.items(), best.0.items()) {
                    Some(next)
                } else {
                    Some(best)
                }
            }
        },
    }
}
