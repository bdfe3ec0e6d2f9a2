use acn_num::Path;

/// Why a newer node doesn't read all that an older one at the same place says. Where several reasons hold at a node, the first of them in
/// this order is named. (This profile's own.)
#[derive(Clone, Copy)]
pub enum Reason {
    /// The nodes are of different kinds: leaf, string, SEQUENCE, list, CHOICE or contained octets, and among leaves the type.
    Kind,
    /// They begin at different multiples of bits.
    Align,
    /// A number, a size, a character or an index is written in another way.
    Coding,
    /// A number, a size or a character that the older node permits isn't permitted; the least is named, first of the numbers or sizes,
    /// then of the characters.
    Values,
    /// A component, an alternative or an item has another name, or an item another number.
    Names,
    /// The SEQUENCEs have different counts of fields, or an inserted field stands against a component.
    Fields,
    /// A component is always there, there by a bit or there by conditions, where the other isn't.
    Presence,
    /// A size, a condition or a choice rests on a field at another place, a condition compares with another number, there are more or
    /// fewer conditions, or the slots at home in the SEQUENCEs are others.
    Determinant,
    /// The alternative is told in another way, or there are fewer alternatives.
    Alternatives,
}

/// Whether a newer tree reads all that packets of an older one say. (This profile's own.)
#[derive(Drop)]
pub enum Answer {
    Yes,
    /// The path of the first node of the older tree in preorder at which a reason holds, and the first of the reasons there. `Values` alone
    /// has a number.
    No {
        at: Path,
        reason: Reason,
        number: Option<i128>,
    },
}
