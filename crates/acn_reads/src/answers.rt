//! What the calls answer of a walk.

ghost use Rattle.std.specs.Prelude.{◌≡◌, ℕ, Bool, List};
ghost use Rattle.acn_grammar.specs.Fails.{Refusal};
ghost use Rattle.acn_grammar.specs.Grammar.{Grammar};
ghost use Rattle.acn_reads.specs.Answers.{Refuses};
ghost use Rattle.acn_grammar.specs.declared.fault.Refuse.TheVariants.{NoMemory};
ghost use Rattle.acn_reads.specs.Decoded.{IsFault, Tells};

use crate::stop::Stop;
use acn_grammar::{Fault, Refuse};
use acn_num::Path;

/// The most bytes from which a packet is read.
pub const MOST_BYTES: usize = 4_294_967_296;

/// The fault of a walk that stopped at this path.
pub fn refusal(stop: Stop, path: Path) -> Refuse
    ensures told { (root : Grammar) (input : List Bool) → Tells stop (λ r at. (reach : ℕ) × Refusal root input (record { path = path; reason = r; at = at }) reach) → Refuses root input result }
    ensures fault { IsFault stop → result ≡ NoMemory → ⊥ }
{
    match stop {
        Stop::Fails { reason, at } => Refuse::Bad(Fault { path, reason, at }),
        Stop::NoMemory => Refuse::NoMemory,
    }
}
