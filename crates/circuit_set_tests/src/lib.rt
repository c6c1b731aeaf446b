//! Tests of datagrams and of circuits beside the rows of `examples/rows`: the lines that stand at routers, ends, sets and verdicts.
//!
//! They stand here and not in those crates, since a crate with tests is proved twice. What makes a test's proof long is each function that
//! makes, returns or drops a set, a verdict or an event: so few functions do, and lend them to the rest.
#![tactic(auto)]

#[cfg(test)]
mod ends;
#[cfg(test)]
mod routers;
#[cfg(test)]
mod sets;
#[cfg(test)]
mod verdicts;
