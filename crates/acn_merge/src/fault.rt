ghost use Rattle.std.specs.Prelude.{◌≡◌};

use acn_num::NoMemory;
use acn_survey::Refused;

/// Why a type has no tree.
#[derive(Drop)]
pub enum MergeFault {
    /// A node can't be made: the first such, with the first of its reasons.
    At(Refused),
    /// Memory ran out.
    NoMemory,
}

impl From<NoMemory> for MergeFault {
    ghost use Rattle.acn_merge.specs.declared.fault.MergeFault.TheVariants as fault;

    ghost from_gives = { λ _ e. e ≡ fault.NoMemory };

    fn from(_: NoMemory) -> Self {
        MergeFault::NoMemory
    }
}
