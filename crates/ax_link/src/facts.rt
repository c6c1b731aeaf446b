//! What a link tells of itself. Used by `link`, and by `link_life` and `link_table`.
use crate::phase::LinkPhase;

/// What a link tells of itself.
#[derive(Clone, Copy, Debug, PartialEq, Eq)]
pub struct LinkFacts {
    pub phase: LinkPhase,
    /// How many payloads the other station has acknowledged.
    pub acked: u64,
    /// How many were put out.
    pub sent: u64,
    /// How many came from the other station.
    pub got: u64,
    /// How many were accepted and not acknowledged.
    pub held: usize,
    /// How many came and were not taken.
    pub inbox: usize,
    /// Whether it is to be released once all that was accepted is acknowledged.
    pub closing: bool,
}
