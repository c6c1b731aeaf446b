//! A node's links by peer, and with them a carrier of datagrams (AX.25 2.2; NET/ROM, Appendix B).
#![tactic(auto)]

mod answers;
mod entry;
mod frames_out;
mod held_links;
pub mod laws;
mod link_of;
mod looks;
mod octets;
mod offer_calls;
mod offers;
mod open_refusal;
mod path_refusal;
mod pending;
mod route;
mod send_calls;
mod sends;
mod table;
mod text_calls;
mod text_refusal;
mod texts;
mod work;
mod written;

pub use link_of::LinkOf;
pub use octets::Octets;
pub use open_refusal::OpenRefusal;
pub use path_refusal::PathRefusal;
pub use table::LinkTable;
pub use text_refusal::TextRefusal;
pub use written::Written;

/// The most links of a node (this project's profile).
pub const MAX_LINKS: usize = 64;
/// The most peers that have a path (this project's profile).
pub const MAX_PATHS: usize = 16;
/// The most repeaters of a path that a node uses first (this project's profile).
pub const MAX_ORIGINATED: usize = 2;
