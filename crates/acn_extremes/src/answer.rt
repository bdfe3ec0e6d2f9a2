use acn_extreme_laws::Why;
use acn_num::{NoMemory, Path};
use acn_tree::Value;

/// A shortest and a longest packet of a tree, with no padding behind it.
#[derive(Drop)]
pub struct Ends {
    /// How many bits the shortest has.
    pub least: u64,
    /// A value that is written in so many.
    pub least_value: Value,
    /// How many bits the longest has.
    pub greatest: u64,
    /// A value that is written in so many.
    pub greatest_value: Value,
}

/// Why the shortest and the longest packet of a tree aren't told.
#[derive(Drop)]
pub enum ExtremesFault {
    /// A determinant of the tree doesn't serve one use alone, or something else keeps packets from being put together part by part:
    /// the least reason that some node shows, and the path of the first node in preorder that shows it.
    NotSingle { at: Path, why: Why },
    /// Memory ran out.
    NoMemory,
}

impl From<NoMemory> for ExtremesFault {
    ghost use Rattle.std.specs.Prelude.{◌≡◌};
    ghost use Rattle.acn_extremes.specs.declared.answer.ExtremesFault.TheVariants as fault;

    ghost from_gives = { λ _ e. e ≡ fault.NoMemory };

    fn from(_: NoMemory) -> ExtremesFault {
        ExtremesFault::NoMemory
    }
}
