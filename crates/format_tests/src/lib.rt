//! Tests of the crates that turn octets and texts into values and back, beside the vectors of `radio_vectors` and the rows of
//! `examples/rows`: what no program shows.
//!
//! They stand here and not in those crates, since a crate with tests is proved twice.
#![tactic(auto)]

#[cfg(test)]
mod addresses;
#[cfg(test)]
mod soak_files;
