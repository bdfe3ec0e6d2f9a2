//! Paths of determinants: which slot the names of a path lead to.
#![tactic(auto)]

mod laws;
mod scope;

pub use laws::paths_lead_where_the_merge_takes_them;
pub use scope::{ParamFault, Scope, ScopeField};
