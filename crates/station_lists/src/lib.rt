//! The lists that a station tells at its prompt: destinations, routes, neighbours, users, ports, who was heard, links, and what there is of
//! each, counted; and what it tells in one line.
//!
//! Each is added to a reply that has begun, from values that say what is seen. The station collects these.
#![tactic(auto)]

mod destinations;
mod heard;
mod links;
mod more;
mod neighbours;
mod place;
mod ports;
mod routes;
mod shown_node;
mod stats;
mod told;
mod users;

pub use destinations::{Destination, add_destinations};
pub use heard::add_heard;
pub use links::{LinkRow, add_links};
pub use neighbours::{NeighbourRow, add_neighbours};
pub use place::Place;
pub use ports::{PortRow, add_ports};
pub use routes::{MemberRoute, add_routes};
pub use shown_node::ShownNode;
pub use stats::{Stats, add_stats};
pub use told::{Told, add_told};
pub use users::{Doing, UserRow, Where, add_users};
