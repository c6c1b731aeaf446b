//! What a node tells. Used by `node`, `receiving`, `settling` and `station`, and by the replay and `trace_lines`.
use ax_address::Call;
use ax_link::LinkNotice;
use circuit_table::SetEvent;

/// What a node tells of what has happened to it.
#[derive(Debug, Drop, PartialEq, Eq)]
pub enum NodeEntry {
    /// Something happened at its circuits.
    Set(SetEvent),
    /// Something happened at the link with a peer.
    Link(Call, LinkNotice),
    /// A broadcast was not taken, for want of room in the routing table: so many usable routes there were, and so many there
    /// would have been.
    Overflow { live: usize, would_be: usize },
}
