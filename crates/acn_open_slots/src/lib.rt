//! The numbers of the slots that are open at a place of a packet, in tables of fixed size.
#![tactic(auto)]

mod all;
mod few;
mod laws;
mod table;

pub use all::AllSlots;
pub use few::FewSlots;
pub use laws::a_place_is_free;
pub use table::SlotTable;
