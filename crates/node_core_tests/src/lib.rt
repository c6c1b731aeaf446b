//! The lines that stand at `Node`: all else that a node does is shown by the rows of `examples/rows` and `examples/station`.
//!
//! They stand here and not in `node_core`, since a crate with tests is proved twice.
#![tactic(auto)]

#[cfg(test)]
mod in_use;
