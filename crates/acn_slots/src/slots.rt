use acn_num::Row;

/// What a determinant is, which says what numbers it has.
#[derive(Clone, Copy)]
pub enum Sort {
    /// An INTEGER, with its own numbers.
    Integer,
    /// A BOOLEAN, with 0 and 1.
    Boolean,
    /// An ENUMERATED, with the indices of its items.
    Enumerated,
}

/// A determinant: an inserted field or a component with a number of its own.
#[derive(Drop)]
pub struct Slot {
    /// The path of its field's node. A step is the number of a field in the order of the packet.
    pub path: Row<usize>,
    /// What it is.
    pub sort: Sort,
}

/// Where a path of names leads.
#[derive(Drop)]
pub enum Lead {
    /// To this determinant.
    Slot(Slot),
    /// To none.
    Nowhere,
    /// To one of this kind, but a field on the way, or this itself, may be absent: `through` names lead up to the first such field.
    Absent { through: usize, sort: Sort },
}
