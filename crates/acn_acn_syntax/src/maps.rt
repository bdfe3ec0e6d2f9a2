use acn_num::{Name, Row};

/// A written number, and whether a minus stands before it.
#[derive(Clone, Copy)]
pub struct Signed {
    /// Whether a minus stands before the number.
    pub negative: bool,
    /// The number behind it.
    pub n: u64,
}

/// A line of a mapping table: `first .. last = image`, or `first = image`.
#[derive(Clone, Copy)]
pub struct MapLine {
    /// The first key.
    pub first: Signed,
    /// The last key, where it is written.
    pub last: Option<Signed>,
    /// The image of the first key.
    pub image: Signed,
}

/// A mapping table: `name { lines }`. It may have no lines.
#[derive(Drop)]
pub struct MapTable {
    /// The name by which `mapping-function` refers to it.
    pub name: Name,
    /// The lines, in order.
    pub lines: Row<MapLine>,
}

/// The tables of a mapping file, at least one.
#[derive(Drop)]
pub struct MapTables {
    /// The tables, in order.
    pub tables: Row<MapTable>,
}
