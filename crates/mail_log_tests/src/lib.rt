//! Tests of logs of mail: each kind of record, failures, and files that are refused.
//!
//! They stand here and not in their crates, since a crate with tests is proved twice.
#![tactic(auto)]

#[cfg(test)]
mod failures;
#[cfg(test)]
mod kinds;
#[cfg(test)]
mod refused;
