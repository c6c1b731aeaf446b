//! What came up at a node, and what became of it. Used by `router`, and by `circuit_table`, the replay and `trace_lines`.
use crate::Datagram;
use ax_address::Call;

/// What came up: a lost neighbour, or a datagram and what became of it.
#[derive(Debug, Drop, PartialEq, Eq)]
pub enum Routed {
    /// The neighbour was lost, and its reports ended.
    Lost(Call),
    /// The datagram is for this node. It is as it came: its transport is from octet 15 on.
    Mine { origin: Call, datagram: Datagram },
    /// The carrier took it to the next hop.
    Forwarded,
    /// It has gone over as many hops as it may.
    Expired,
    /// No route leads to its destination.
    NoRoute,
    /// It came from this node itself.
    Returned,
    /// The carrier had no room for it.
    Dropped,
    /// Its octets are no datagram.
    Bad,
}
