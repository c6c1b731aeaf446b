//! What a station tells of what has happened at its members, and of itself: entries, and each as a JSON object of one line. Own profile.
//!
//! The station makes entries of what members have told, and whoever runs it writes their lines.
#![tactic(auto)]

mod entry;
mod lines;
mod words;

pub use entry::{StationEntry, told_of};
pub use lines::{add_entry, add_status};
