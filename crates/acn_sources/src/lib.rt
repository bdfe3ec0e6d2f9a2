//! The sources of files: from the bytes of ASN.1, ACN and mapping files to their trees, or the first refusal.
#![tactic(auto)]

mod fault;
mod kind;
mod laws;
mod reading;
mod sources;

pub use fault::{FileFault, SourcesFault};
pub use kind::FileKind;
pub use laws::{faults_have_no_trees, one_sources};
pub use reading::{read_acn, read_asn, read_map};
pub use sources::{File, read_sources};
