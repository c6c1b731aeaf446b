//! What an end tells of itself. Used by `end`, and by `circuit_table`, `node_core` and crates above.
use crate::phase::EndPhase;

/// What an end tells of itself.
#[derive(Clone, Copy, Debug, PartialEq, Eq)]
pub struct EndFacts {
    pub phase: EndPhase,
    pub window: u8,
    /// How many messages were written.
    pub wrote: u64,
    /// How many messages came whole.
    pub received: u64,
    /// How many fragments the other end has acknowledged.
    pub acked: u64,
    /// How many bytes came and weren't taken, those of a message of which more is to come among them. Whether a message
    /// waits is told by `received` and by how many were taken.
    pub waiting: usize,
    /// How many bytes are in written messages that aren't wholly acknowledged.
    pub queued: usize,
}
