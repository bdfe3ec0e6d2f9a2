//! The lines that are printed on trees: paths, faults of packets and of the checker, refused values, bounds, and inputs that are too long; and
//! the parts of such lines, for the crates above. No call takes memory.
#![tactic(auto)]

mod check_lines;
mod digits;
mod lines;
mod part;
mod path;
mod slots;
mod step;
mod values;

pub use check_lines::{put_check_fault, put_no_memory};
pub use lines::{
    put_bounds, put_empty_packet, put_fault, put_input_too_long, put_line_too_long,
    put_packet_fault,
};
pub use part::{Part, put_parts};
pub use path::put_path;
pub use slots::with_step;
pub use values::put_unfit;
