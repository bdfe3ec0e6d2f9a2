//! Numbers of slots.

ghost use Rattle.std.specs.Prelude.{◌≡◌, filter, not};
ghost use Rattle.acn_grammar.specs.Tree.{holds};

fn is_among(slots: &[u32], slot: u32) -> bool
    ensures { result ≡ holds slots.now slot }
{
    for other in slots {
        if *other == slot {
            return true;
        }
    }
    false
}

/// Forgets the numbers of these slots.
pub fn forget(home: &[u32], slots: &mut Vec<(u32, i128)>)
    ensures { slots.new.items ≡ filter (λ e. not (holds home.now e.0)) slots.old.items }
{
    if home.is_empty() {
        return;
    }
    slots.retain(|number| !is_among(home, number.0));
}
