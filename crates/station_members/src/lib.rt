//! The members of a station: several nodes with their ports, joined by the backplane.
//!
//! A pure machine, without users, mail and files: frames at ports, ticks, rounds and acts come in; frames that go on ports and entries
//! of what happened go out.
#![tactic(auto)]

mod backplane;
mod beacons;
mod broadcasts;
mod config;
mod desk;
mod hearing;
mod joining;
pub mod laws;
mod members;
mod nodes;
mod outgoing;
mod ports;
mod routing;
mod seat;
mod sending;
mod telling;
mod waiting;

pub use config::{BeaconConfig, MemberConfig, MemberRules};
pub use members::Members;

/// The most members of a station (this project's profile).
pub const MAX_MEMBERS: usize = 8;
