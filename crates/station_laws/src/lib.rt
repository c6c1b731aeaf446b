//! What holds of the circuits of any stations, whatever happens to them: laws of the definitions of `station_members`.
#![tactic(auto)]

pub mod laws;
