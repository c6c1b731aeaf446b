//! The verdict on what was told of circuits: the first event at which a datagram or a pair came back too late (this project's
//! profile).
#![tactic(auto)]

mod allowance;
mod book;
mod cause;
mod circuit_told;
mod ends;
mod event;
mod late;
pub mod laws;
mod lists;
mod message;
mod names;
mod pairs;
mod sendings;
mod verdict;

pub use allowance::Allowance;
pub use cause::Cause;
pub use circuit_told::CircuitTold;
pub use event::{Event, Numbered};
pub use late::{Late, LateWhy};
pub use verdict::{Verdict, too_late};
