//! Paths as slices of their steps.

ghost use Rattle.std.specs.Prelude.{◌≡◌};
ghost use Rattle.acn_homes.specs.Homes as spec;

/// The path of the node above; that of the root is its own.
pub fn above(path: &[usize]) -> &[usize]
    ensures { result.now ≡ spec.above path.now }
{
    match path.split_last() {
        Some((_, above)) => above,
        None => path,
    }
}

/// The steps with which both paths begin, out of the first.
pub fn shared<'p>(path: &'p [usize], other: &[usize]) -> &'p [usize]
    ensures { result.now ≡ spec.shared path.now other.now }
{
    for (at, step) in path.iter().enumerate() {
        match other.get(at) {
            None => return &path[..at],
            Some(next) => {
                if *step != *next {
                    return &path[..at];
                }
            }
        }
    }
    path
}
