//! The grammar of packets and the values of packets: their types, and the definitions that every promise on them cites.
#![tactic(auto)]

mod bounds;
mod check_fault;
mod fault;
mod laws;
mod limits;
mod node;
mod pattern;
mod read_fault;
mod unfit;
mod value;

pub use bounds::Bounds;
pub use check_fault::CheckFault;
pub use fault::{Fault, Reason, Refuse};
pub use laws::{data_tell_the_value, grammars_tell_the_node};
pub use limits::{
    MOST_CONDITIONS, MOST_DETERMINANT_BITS, MOST_INTEGER_BITS, MOST_NODES, MOST_OPEN_SLOTS,
    MOST_PACKET_BITS, MOST_PATTERN_BITS, MOST_VALUES,
};
pub use node::{
    Alternative, Body, Choice, ChoiceRule, Field, Items, Node, NumCoding, NumKind, NumLeaf,
    Presence, Seq, SizeRule, Sizing, Table, Test, TextLeaf,
};
pub use pattern::Pattern;
pub use read_fault::ReadFault;
pub use unfit::{Ask, Unfit, UnfitReason};
pub use value::Value;
