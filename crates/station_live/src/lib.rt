//! A station on a stream of KISS bytes: what each read brings it, what it sends then, and what it tells. Own profile.
//!
//! Who runs a station reads the stream and asks the clock, and writes what is sent and told. KISS port P - 1 is port P of the station's
//! file; KISS port 15 carries consoles: an octet for the console, one for the kind, and the rest.
#![tactic(auto)]

mod live_station;
mod sending;
mod taking;

pub use live_station::LiveStation;
