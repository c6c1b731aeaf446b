//! What holds of every network of a file, whatever its lines do: laws of the definitions of `net_model`.
#![tactic(auto)]

pub mod laws;
