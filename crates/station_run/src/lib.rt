//! The commands `run` and `try` of `wursthatch-station`, and the top call `run`, which chooses among these and `check` of `station_cmd`.
//!
//! The program itself is the crate `wursthatch_station`.
#![tactic(auto)]

mod living;
mod runs;
mod top;
mod tries;
mod typing;
mod usage;

pub use cmd_streams::{Status, start};
pub use top::run;
