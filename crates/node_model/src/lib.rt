//! The model of a node, as definitions: its state, its sessions and users, and the turns that follow each input until one does nothing. And
//! that these turns come to an end.
//!
//! It stands below `node_core`, whose definitions rest on that proof.
#![tactic(auto)]

mod circuit;
mod reply;
mod stage;
mod user;

pub use circuit::Circuit;
pub use reply::Reply;
pub use stage::Stage;
pub use user::User;
