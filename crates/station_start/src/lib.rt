//! A station as it starts, by its file: its members (`station_settings`), and what the operator says of it to its users. Own profile.
//!
//! Who runs a station reads the file, and hands it on with the pair that its members give first.
#![tactic(auto)]

mod abouts;
mod starting;

pub use starting::station_of;
