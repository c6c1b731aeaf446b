//! Tests of a station's ports, prompt and file: worked frames, what operators type and write, and that memory is found.
//!
//! They stand here and not in their crates, since a crate with tests is proved twice.
#![tactic(auto)]

#[cfg(test)]
mod files;
#[cfg(test)]
mod frames;
#[cfg(test)]
mod lines;
#[cfg(test)]
mod lists;
