//! Where types and ACN entries refer to something by name, in the order of the text.
#![tactic(auto)]

mod entry_mentions;
mod mention;
mod set_mentions;
mod type_mentions;

pub use entry_mentions::{AcnMention, push_entry};
pub use mention::{Mention, Role};
pub use type_mentions::push_type;
