//! The commands that run nodes, and the top call `run`, which chooses among these and those of `tool_cmd`.
//!
//! The program itself is the crate `wursthatch`; the tests of `run` stand in `node_cmd_tests`.
#![tactic(auto)]

mod command;
mod live;
mod outcomes;
mod ran;
mod replays;
mod report_refusal;
mod soaks;
mod starting;
mod top;
mod usage;

pub use cmd_streams::{Reading, Status, SystemClock, Writing, start};
pub use ran::Ran;
pub use top::run;
