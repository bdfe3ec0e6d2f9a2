/// Which of the packets of a grammar is asked for.
#[derive(Clone, Copy)]
pub enum Side {
    /// One with the fewest bits.
    Shortest,
    /// One with the most bits.
    Longest,
}
