//! Kinds of nodes.

ghost use Rattle.std.specs.Prelude.{◌≡◌};
ghost use Rattle.acn_compare.specs.Tests as spec;
ghost use Rattle.acn_grammar.specs.View.{form_of};

use acn_tree::{Body, NumKind};

fn kinds_same(old: NumKind, new: NumKind) -> bool
    ensures { result ≡ spec.kinds_same old new }
{
    old == new
}

/// Whether two nodes are of one kind.
pub fn same_kind(old: &Body, new: &Body) -> bool
    ensures { result ≡ spec.same_kind (form_of old.now) (form_of new.now) }
{
    match old {
        Body::Num(a) => match new {
            Body::Num(b) => kinds_same(a.kind, b.kind),
            _ => false,
        },
        Body::Octets(_) => match new {
            Body::Octets(_) => true,
            _ => false,
        },
        Body::Bits(_) => match new {
            Body::Bits(_) => true,
            _ => false,
        },
        Body::Text(_) => match new {
            Body::Text(_) => true,
            _ => false,
        },
        Body::Seq(_) => match new {
            Body::Seq(_) => true,
            _ => false,
        },
        Body::List(_, _) => match new {
            Body::List(_, _) => true,
            _ => false,
        },
        Body::Choice(_) => match new {
            Body::Choice(_) => true,
            _ => false,
        },
        Body::Contained(_, _) => match new {
            Body::Contained(_, _) => true,
            _ => false,
        },
    }
}
