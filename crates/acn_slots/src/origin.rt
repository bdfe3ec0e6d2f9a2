use acn_world::EntryAt;

/// Where a bracket or braces of a type stand.
#[derive(Clone, Copy)]
pub enum Origin<'w> {
    /// At its use.
    Use,
    /// At an entry along its chain.
    Entry(EntryAt<'w>),
}
