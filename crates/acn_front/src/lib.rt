//! From files to what their sources say, and from types to the grammars of their packets.
#![tactic(auto)]

mod grammars;
mod laws;
mod loading;

pub use grammars::{TypeFault, grammar_of_type, grammars_of_types};
pub use laws::{
    faulty_files_have_no_world, one_grammar, one_world, refused_types_have_no_grammars,
};
pub use loading::{LoadFault, load};
