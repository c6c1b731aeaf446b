//! The file of a station: what it says, or what is wrong with it.
//!
//! `read_station` reads the bytes of a file to a `StationFile`, or to a `Refusal` that names the line, the table, the key and the reason.
//! `check_text` tells what a station of that file runs. `docs/station-file.md` has the keys; the definitions are in `specs/`.
#![tactic(auto)]

mod beacons;
mod check;
mod fault;
mod file_key;
mod file_text;
mod items;
mod limits;
mod lines;
mod nodes;
mod ports;
mod posts;
mod refusal;
mod section;
mod settings;
mod station;
mod tables;
mod told;
mod values;
mod why;

pub use beacons::Beacon;
pub use check::check_text;
pub use fault::Fault;
pub use file_key::FileKey;
pub use file_text::FileText;
pub use items::locks::Lock;
pub use items::qualities::NeighbourQuality;
pub use nodes::Member;
pub use ports::Port;
pub use posts::Post;
pub use refusal::{Refusal, read_station};
pub use section::Section;
pub use station::StationFile;
pub use told::refusal_text;
pub use why::{ItemFault, Why};
