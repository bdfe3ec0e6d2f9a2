use acn_num::Name;

/// A file in memory, with the count of its faults.
#[derive(Drop)]
pub struct Entry {
    pub name: Name,
    pub bytes: Vec<u8>,
    pub faults: u64,
}
