//! The sessions of a station by themselves: what is kept of a user and of his far side, and what a session does next by what it sees of
//! both. Whoever has the members does these things.
#![tactic(auto)]

mod far;
mod far_notes;
mod place;
mod presence;
mod session;
mod sight;
mod thing;
mod unsent;

pub use far::{Far, Stage};
pub use place::Place;
pub use presence::Presence;
pub use session::Session;
pub use sight::Sight;
pub use thing::Thing;
pub use unsent::Unsent;
