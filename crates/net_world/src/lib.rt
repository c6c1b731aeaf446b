//! Replays of network files: a network runs from its start to its last line, and what it leaves is a trace.
//!
//! `read_network` of network_file reads a file, `replay` runs it; `report` of net_report tells what came of it, and `too_late` of
//! net_verdict what came too late. `docs/network-file.md` has the rules in words; the definitions are in `specs/` of net_model.
#![tactic(auto)]

mod acting;
mod bursting;
mod delivering;
mod doing;
mod mailing;
mod moves;
mod replaying;
mod restarting;
mod world;

pub use replaying::replay;
