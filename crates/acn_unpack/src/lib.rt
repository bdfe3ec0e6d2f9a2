//! Values out of bits by a walk over the steps of a plan; or their length alone, without memory.
#![tactic(auto)]

mod calls;
mod choices;
mod keep;
mod laws;
mod leaves;
mod nothing;
mod packet;
mod read;
mod slots;
mod steps;
mod values;

pub use calls::{skim, unpack};
pub use laws::{faults_rest_on_bits, values_rest_on_bits};
