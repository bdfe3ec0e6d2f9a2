ghost use Rattle.std.specs.Prelude.{◌≡◌};

use acn_constraint::ConstraintFault;
use acn_num::{Name, NoMemory};
use acn_reasons::PathFault;
use acn_sites::AttrKind;

/// Why a node can't be made. The rules are this profile's own; reasons are tried in the order in which they stand here.
#[derive(Drop)]
pub enum MergeReason {
    /// Its path has more than `MOST_STEPS` steps.
    TooDeep,
    /// It is one over `MOST_NODES` nodes.
    TooManyNodes,
    /// A bracket gives this attribute twice.
    RepeatedAttribute(AttrKind),
    /// This attribute may not stand here.
    AttributeNotHere(AttrKind),
    /// Its constraints leave nothing, or have no bound (X.680 clauses 49 to 51). It is never want of memory.
    Constraint(ConstraintFault),
    /// The braces don't list what the type has.
    NoSuchField,
    /// The arguments differ from the parameters in number or kind, or the asked type has parameters.
    Arguments,
    /// A path leads to no determinant, or through a field that may be absent.
    Path(PathFault),
    /// Its mapping table isn't one to one, or leaves the numbers, at this key.
    BadMapping { key: i128 },
    /// Two items of an enumeration have one number; or an item, named twice, has none between braces (X.680, 20.3).
    EnumValues { first: Name, second: Name },
    /// Its patterns can't stand where they stand.
    PatternClash,
    /// Its `size` is none that it can have.
    BadSize,
    /// Its least significant octet is to stand first, and its code isn't whole octets of a number in base 2.
    EndianSize,
    /// This permitted number, the least such, can't be written.
    TooNarrow { value: i128 },
    /// The value behind DEFAULT isn't permitted by its type (X.680 clause 25).
    BadDefault,
}

/// The first node that can't be made.
#[derive(Drop)]
pub struct Refused {
    /// The text of its path, which begins with the names of the asked type and its module.
    pub place: Name,
    /// The first reason that holds there.
    pub reason: MergeReason,
}

/// Why a type can't be made.
#[derive(Drop)]
pub enum MergeFault {
    /// A node can't be made.
    At(Refused),
    /// Memory ran out.
    NoMemory,
}

impl From<NoMemory> for MergeFault {
    ghost use Rattle.acn_survey.specs.declared.reason.MergeFault.TheVariants as fault;

    ghost from_gives = { λ _ e. e ≡ fault.NoMemory };

    fn from(_: NoMemory) -> Self {
        MergeFault::NoMemory
    }
}
