//! Numbers that are drawn from a set in order, each once.

ghost use Rattle.std.specs.Prelude.{◌≡◌};
ghost use Rattle.std.specs.Option.{option_to_list};
ghost use Rattle.acn_codings.specs.Drawing as spec;

/// The numbers that aren't drawn yet: what is left of the range that was begun, and the ranges behind it.
#[derive(Clone, Copy)]
pub struct Undrawn<'s> {
    pub begun: Option<(i128, i128)>,
    pub behind: &'s [(i128, i128)],
}

// What a range leaves behind its first number.
fn left_of_range(range: (i128, i128)) -> Option<(i128, i128)>
    ensures { option_to_list result ≡ spec.left_of_range range }
{
    if range.0 < range.1 {
        Some((range.0 + 1, range.1))
    } else {
        None
    }
}

/// The least number, or 0 where there is none, and what is left then.
pub fn draw(from: Undrawn<'_>) -> (i128, Undrawn<'_>)
    ensures number { result.0 ≡ spec.drawn (spec.undrawn_view from.entry) }
    ensures left { spec.undrawn_view result.1 ≡ spec.left (spec.undrawn_view from.entry) }
{
    match from.begun {
        Some(range) => (
            range.0,
            Undrawn {
                begun: left_of_range(range),
                behind: from.behind,
            },
        ),
        None => match from.behind.split_first() {
            None => (0, from),
            Some((first, behind)) => (
                first.0,
                Undrawn {
                    begun: left_of_range(*first),
                    behind,
                },
            ),
        },
    }
}
