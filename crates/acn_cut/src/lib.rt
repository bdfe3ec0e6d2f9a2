//! Numbers whose codes lie side by side in one range are read by one subtraction, and those of
//! neighbouring fields out of one word.
#![tactic(auto)]

mod cut;
mod made;
mod read;
mod stretch;
mod stretches;
mod strip;

pub use cut::Cut;
pub use made::cut_of;
pub use read::read_cut;
pub use stretch::{Piece, Stretch};
pub use stretches::stretches_of;
pub use strip::{Strip, read_piece};
