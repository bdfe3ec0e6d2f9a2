//! Routing of space packets: each packet of an input becomes a line, by the tree of its application process identifier.
#![tactic(auto)]

mod count;
mod header;
mod laws;
mod lines;
mod packets;
mod page;
mod route;
mod route_fault;
mod routes;
mod routing;

pub use count::{LineKind, RouteCount};
pub use laws::{one_line, one_space};
pub use route_fault::RouteFault;
pub use routes::{AddFault, Routes};
pub use routing::route_all;
