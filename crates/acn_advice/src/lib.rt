//! A page of what helps on a refusal: at most `MOST_LINES` lines, which are printed behind the one
//! line of a run. Here stand the page itself, what a run says and reads, kept for it, and what
//! several pages say alike: lines with a mark, and names that are near.
#![tactic(auto)]

mod heard;
mod mark;
mod near;
mod page;
mod place;
mod recalled;
mod shown;

pub use heard::Heard;
pub use mark::{put_line_and_mark, put_marked};
pub use near::nearest;
pub use page::{MOST_LINES, Page};
pub use recalled::Recalled;
pub use shown::{put_names, put_shown};
