ghost use Rattle.std.specs.Prelude.{◌≡◌};

use acn_grammar::Ask;

/// Why an event of writing doesn't come to pass.
#[derive(Clone, Copy)]
pub enum Halt {
    /// A constraint isn't met.
    Breaks,
    /// No permitted number meets what was asked of the slot and the wanted ask. `earlier` is the
    /// `Equal` before it that contradicts it, else the `Avoid` that does.
    Unmet {
        slot: u32,
        earlier: Option<Ask>,
        wanted: Ask,
    },
    /// Contents have so many octets, which is no permitted size.
    Miscounts {
        octets: u64,
    },
    /// There is no room for one slot more, for one number to avoid more, or for contents in those
    /// that are begun.
    Full,
    /// The event can't come here.
    Lost,
}

/// An event didn't come to pass.
#[derive(Clone, Copy)]
pub struct Halted;

/// Tells why an event doesn't come to pass.
pub fn tell(why: &mut Halt, reason: Halt) -> Halted
    ensures { why.new ≡ reason }
{
    *why = reason;
    Halted
}
