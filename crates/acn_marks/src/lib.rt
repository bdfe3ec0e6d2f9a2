//! Places in sources, looked for in their tokens: where a name stands, and the entries and
//! components of the node of a path. They are looked for only where something is refused, so
//! nothing rests on them but what helps.
#![tactic(auto)]

mod asn;
mod brackets;
mod names;
mod paths;
mod source;
mod walk;

pub use brackets::{fields_of, is_start, opening};
pub use names::{assigned, assignment_of, first_use, module_of, second_use};
pub use paths::{Step, first_step, module_and_type};
pub use source::{Mark, Source, Span, is_text};
pub use walk::{Marks, marks_of};
