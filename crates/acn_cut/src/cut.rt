/// How a number leaf is read out of one word: `first` is the code of its least number `low`, `span`
/// says how far the greatest number is behind that one, and each code has `width` bits. (This
/// profile's own.)
#[derive(Clone, Copy)]
pub struct Cut {
    pub low: i128,
    pub first: u64,
    pub span: u64,
    pub width: u32,
}
