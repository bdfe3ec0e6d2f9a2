/// Where contents begin in the buffer, and whether a hole for their size stands in front of them.
#[derive(Clone, Copy, Default)]
pub struct Opening {
    pub base: u64,
    pub sized: bool,
}
