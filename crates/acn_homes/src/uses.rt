use acn_num::Row;

/// A use of a determinant, by paths. A step of a path is the number of a field in the order of the packet, or that of an
/// alternative, or 0 into a list or a content.
#[derive(Drop)]
pub struct Use {
    /// The node that uses it: by a size, a condition or a determinant.
    pub user: Row<usize>,
    /// The field that it names.
    pub field: Row<usize>,
}
