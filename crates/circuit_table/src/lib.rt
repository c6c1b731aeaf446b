//! The circuits of a node: its ends by number, what they send and heed, and what they tell. What holds of circuits over every schedule
//! stands in `circuit_set`, which hands on these calls.
#![tactic(auto)]

mod event;
mod finding;
mod heeding;
mod held_ends;
mod holder;
pub mod laws;
mod loud;
mod pair_order;
mod pump;
mod receiving;
mod refusal;
mod set;
mod untold;

pub use event::SetEvent;
pub use refusal::{ConnectRefusal, DiscardRefusal, NoEnd, SetRefusal};
pub use set::CircuitSet;

/// The most ends that a node holds (this project's profile).
pub const MAX_ENDS: usize = 64;
