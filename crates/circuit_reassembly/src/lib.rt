//! Messages on a circuit: a message in pieces, and pieces gathered to messages (NET/ROM, Appendix B).
//!
//! A message travels as fragments of at most 236 bytes, the most that one information message carries. Each but the last
//! has the flag that more follow.
#![tactic(auto)]

mod fragments;
mod gather;
mod held;
pub mod laws;

pub use fragments::{fragment, fragment_count};
pub use gather::{Gather, Gathered, Oversize};

/// The most bytes of one fragment (NET/ROM, Appendix B).
pub const FRAGMENT: usize = 236;
/// The most bytes of one message (this project's profile).
pub const LONGEST: usize = 8192;
