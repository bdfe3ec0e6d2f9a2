use acn_grammar::{ChoiceRule, NumLeaf, Presence, Sizing, Test, TextLeaf};
use acn_num::{Name, Row};

/// A node without the nodes inside it. (Plans are this profile's own.)
#[derive(Drop)]
pub struct Step {
    /// The bits to a multiple of which a packet is filled before the node's code: 1, 8, 16 or 32.
    pub align: u32,
    /// What the node is.
    pub act: Act,
    /// Where it stands.
    pub place: Place,
    /// The number of the first step behind the node and all that is inside it.
    pub next: u32,
}

/// The body of a node without the nodes inside it, which follow as steps. What each variant means stands at `Body` of `acn_grammar`.
#[derive(Drop)]
pub enum Act {
    /// INTEGER, BOOLEAN, ENUMERATED or NULL.
    Num(NumLeaf),
    /// OCTET STRING; its sizes count octets.
    Octets(Sizing),
    /// BIT STRING; its sizes count bits.
    Bits(Sizing),
    /// IA5String; its sizes count characters.
    Text(TextLeaf),
    /// SEQUENCE, with the slots at home there, ascending.
    Seq(Row<u32>),
    /// SEQUENCE OF; its sizes count elements.
    List(Sizing),
    /// CHOICE, with its alternatives.
    Choice(Cases),
    /// OCTET STRING (CONTAINING ..); its sizes count octets.
    Contained(Sizing),
}

/// The alternatives of a CHOICE without the nodes inside it.
#[derive(Drop)]
pub struct Cases {
    /// What says which of them is there.
    pub rule: ChoiceRule,
    /// The numbers of their steps, in order.
    pub numbers: Row<u32>,
}

/// Where a node stands in the one round it, with what that one says of it. What the fields mean stands at `Field` and `Alternative` of
/// `acn_grammar`.
#[derive(Drop)]
pub enum Place {
    /// The root, round which nothing stands.
    Root,
    /// A component of a SEQUENCE.
    Component {
        name: Name,
        presence: Presence,
        default: Option<Name>,
        slot: Option<u32>,
    },
    /// A field of a SEQUENCE that ACN adds.
    Inserted {
        name: Name,
        slot: Option<u32>,
    },
    /// An alternative of a CHOICE. `item` is the index of the item of its name, where the number of a slot says which alternative is there.
    Alternative {
        name: Name,
        tests: Row<Test>,
        item: Option<u32>,
    },
    /// The element of a list.
    Element,
    /// The content of octets.
    Content,
}
