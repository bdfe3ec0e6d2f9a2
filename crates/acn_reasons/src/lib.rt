//! Why a site can't be made: the reasons that are judged by the attributes, braces, arguments and constraints of one site alone.
#![tactic(auto)]

mod arguments;
mod braced;
mod classes;
mod constrained;
mod paths;
mod standing;

pub use arguments::{are_passed_on, has_wrong_arguments, own_arguments};
pub use braced::has_no_such_field;
pub use classes::{Class, class_of, encoding_attr, size_attr};
pub use constrained::constraint_fault;
pub use paths::{PathFault, bad_path, push_paths};
pub use standing::{attribute_not_here, is_too_deep, repeated_attribute};
