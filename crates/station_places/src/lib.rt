//! The places at which users of a station are, and those with which they are connected: ends of circuits and links at members, and
//! consoles. What is seen there, and what is taken from there and given there.
#![tactic(auto)]

mod console_outs;
mod ends;
mod giving;
pub mod laws;
mod links;
mod looks;
mod sides;
mod taking;

pub use console_outs::{ConsoleOut, ConsoleOuts};
pub use links::facts_of;
pub use sides::Sides;
