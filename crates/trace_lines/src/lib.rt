//! The trace of a network as text: one JSON object a line.
//!
//! `trace_text` writes all that a replay leaves: the network that was read, the lines of its file, each event in its order, each node as it
//! was left, and the verdict with its cause. `docs/trace.md` has each object and each field; the definitions are in `specs/`.
#![tactic(auto)]

mod causes;
mod circuits;
mod events;
mod heads;
mod json;
mod left;
mod lines;
mod mails;
mod marks;
mod stands;
mod traces;

pub use traces::{TraceVerdict, trace_text};
