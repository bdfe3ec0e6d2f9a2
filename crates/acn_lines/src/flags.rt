//! The bits of a SEQUENCE that say which components are there.

ghost use Rattle.std.specs.Prelude.{◌≡◌, ◌≤◌, ◌<◌, ◌+◌, ◌^◌};
ghost use Rattle.acn_grammar.specs.Fails.{presence_count};
ghost use Rattle.acn_grammar.specs.Grammar.{Fields};
ghost use Rattle.acn_grammar.specs.View.{field_of, fields_view, with_field};

use acn_grammar::{Field, Presence};

fn with_flag(count: u64, field: &Field) -> u64
    requires { count < 2 ^ 63 }
    ensures value { (fs : Fields) → count + presence_count (with_field (field_of field.now) fs) ≡ result + presence_count fs }
    ensures most { result ≤ count + 1 }
{
    match field {
        Field::Component { presence, .. } => match presence {
            Presence::Bit => count + 1,
            Presence::Always => count,
            Presence::When(_) => count,
        },
        Field::Inserted { .. } => count,
    }
}

/// How many bits say which components are there.
pub fn flags_of(fields: &[Field]) -> u64
    ensures { result ≡ presence_count (fields_view fields.now) }
{
    let mut count = 0u64;
    for field in fields {
        count = with_flag(count, field);
    }
    count
}
