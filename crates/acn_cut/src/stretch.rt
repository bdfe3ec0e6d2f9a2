use crate::cut::Cut;
use acn_num::Row;

/// How the number of a field is read that stands among others in one word: its cut, whether the
/// field is a component, and whose slot the number is. (This profile's own.)
#[derive(Clone, Copy)]
pub struct Piece {
    pub cut: Cut,
    pub is_component: bool,
    pub slot: Option<u32>,
}

/// Neighbouring fields whose numbers are read out of one word of so many bits. (This profile's
/// own.)
#[derive(Drop)]
pub struct Stretch {
    pub pieces: Row<Piece>,
    pub width: u32,
}
