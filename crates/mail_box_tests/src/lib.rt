//! Tests of a post's mail: what is told rests on what was written down, over restarts and failures of the log.
//!
//! They stand here and not in their crate, since a crate with tests is proved twice.
#![tactic(auto)]

#[cfg(test)]
mod handing_over;
#[cfg(test)]
mod letters;
