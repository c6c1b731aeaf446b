//! Tests of the top call beside the rows of `examples/rows`: streams that fail in the middle, and the adapters.
//!
//! They stand here and not in `node_cmd`, since a crate with tests is proved twice.
#![tactic(auto)]

#[cfg(test)]
mod adapters;
#[cfg(test)]
mod faults;
#[cfg(test)]
mod live;
#[cfg(test)]
mod lives;
#[cfg(test)]
mod packets;
#[cfg(test)]
mod runs;
