//! What there is to look at: the top call `look`, and the reason of each status.
//!
//! The program itself is the crate `wursthatch_look`.
#![tactic(auto)]

mod command;
mod listens;
mod top;
mod traces;
mod usage;

pub use cmd_streams::{Status, start};
pub use top::look;
