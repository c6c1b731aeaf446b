//! A station: its members, and their users.
//!
//! A pure machine, which reads no clock and no stream: frames at ports, ticks, rounds, and what is typed at consoles come in, each with
//! its moment; frames, texts for consoles and entries of what has happened go out. `specs/States.antt` has each call as one step of a
//! state, and `specs/Standing.antt` for which states a station stands.
#![tactic(auto)]

mod outs;
mod reading;
mod settling;
mod station;
mod station_out;
mod works;

pub use station::Station;
pub use station_entries::StationEntry;
pub use station_out::StationOut;
