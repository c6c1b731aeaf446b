//! The lines that stand at a link and at a table of links: all else is shown by the rows of `examples/rows` and `examples/station`.
//!
//! They stand here and not in those crates, since a crate with tests is proved twice.
#![tactic(auto)]

#[cfg(test)]
mod common;
#[cfg(test)]
mod link;
#[cfg(test)]
mod table;
