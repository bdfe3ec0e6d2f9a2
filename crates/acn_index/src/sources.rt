use acn_acn_syntax::{AcnModules, MapTables};
use acn_asn_syntax::AsnModules;
use acn_num::Row;

/// The trees of all files, each sort in the order of its files.
#[derive(Drop)]
pub struct Sources {
    /// The trees of the ASN.1 files.
    pub asn: Row<AsnModules>,
    /// The trees of the ACN files.
    pub acn: Row<AcnModules>,
    /// The trees of the mapping files.
    pub maps: Row<MapTables>,
}

/// An assignment, by the number of its module among the ASN.1 modules of all files, and its own number among the
/// assignments of that module. Both count from 0.
#[derive(Clone, Copy, PartialEq, Eq, Hash)]
pub struct TypeId {
    /// The number of the module.
    pub module: u32,
    /// The number of the assignment in the module.
    pub item: u32,
}

/// Where an ACN entry stands in the text. Both numbers count from 0, and what stands earlier has the lower ones.
#[derive(Clone, Copy)]
pub struct EntryPlace {
    /// The number of its module among the ACN modules of all files.
    pub acn: usize,
    /// Its number among the entries of that module.
    pub entry: usize,
}
