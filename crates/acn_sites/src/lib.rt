//! The sites of a type, which are the nodes that are to be made for it, with their attributes.
#![tactic(auto)]

mod attributes;
mod below;
mod earliest;
mod site;

pub use attributes::{AttrKind, Given, kind_of, nearest, place_of, scope_of};
pub use below::{Inside, Typed, alternative_name, content_of, inside_of, sites_below};
pub use earliest::{is_before, sooner};
pub use site::{Position, Site, gives_parameters, has_parameters, root_site};
