//! What a user sees of a station: which node a word names, whose route to it is best, how a node is shown, and the replies that show
//! destinations, routes, neighbours, users, ports, who was heard, links, what there is of each, and what the operator has to say.
//!
//! It looks at the members and at the sessions, and changes nothing. `station_lists` has the texts of the rows. Called by `station_users`.
#![tactic(auto)]

mod about;
mod adding;
mod ended;
mod heard;
mod info;
mod known;
mod links;
mod looks;
mod naming;
mod neighbours;
mod nodes;
mod ports;
mod reached;
mod routes;
mod showing;
mod stats;
mod users;
mod ways;

pub use about::About;
pub use looks::{Looks, begun};
pub use naming::{Named, named_by};
pub use ports::{is_on, member_on};
pub use showing::shown;
pub use ways::best_member;
