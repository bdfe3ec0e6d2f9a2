//! Paths, as the line of a refusal has them.

ghost use Rattle.std.specs.Prelude.{◌≤◌, length};

/// A step of a path.
#[derive(Clone, Copy)]
pub enum Step<'a> {
    /// To a field or an alternative.
    Named(&'a [u8]),
    /// To an element of a list.
    Element,
    /// To what octets contain.
    Content,
}

// How many bytes stand before the next step.
fn name_length(text: &[u8]) -> usize
    ensures { result ≤ length text.now }
{
    for (number, byte) in text.iter().enumerate() {
        if *byte == b'.' || *byte == b'[' || *byte == b'(' {
            return number;
        }
    }
    text.len()
}

// What stands behind the first byte of this value.
fn behind(text: &[u8], mark: u8) -> &[u8] {
    for (number, byte) in text.iter().enumerate() {
        if *byte == mark {
            return text.get(number.saturating_add(1)..).unwrap_or(&[]);
        }
    }
    &[]
}

/// The names of the module and the type with which a path begins, and its steps.
pub fn module_and_type(path: &[u8]) -> Option<(&[u8], &[u8], &[u8])> {
    let (module, more) = path.split_at(name_length(path));
    match more {
        [b'.', named @ ..] => {
            let (name, steps) = named.split_at(name_length(named));
            Some((module, name, steps))
        }
        _ => None,
    }
}

/// The first step of a path, and the steps behind it.
pub fn first_step(steps: &[u8]) -> Option<(Step<'_>, &[u8])> {
    match steps {
        [b'.', named @ ..] => {
            let (name, more) = named.split_at(name_length(named));
            Some((Step::Named(name), more))
        }
        [b'[', more @ ..] => Some((Step::Element, behind(more, b']'))),
        [b'(', more @ ..] => Some((Step::Content, behind(more, b')'))),
        _ => None,
    }
}
