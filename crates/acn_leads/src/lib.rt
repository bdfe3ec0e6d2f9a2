//! Whether the first bits of an element tell it from the pattern that ends its list.
#![tactic(auto)]

mod begins;
mod leads;

pub use leads::is_ambiguous;
