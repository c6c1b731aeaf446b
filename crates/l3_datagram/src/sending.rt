//! What became of a datagram of this node. Used by `router`, and by `circuit_table`.

/// What became of a datagram of this node.
#[derive(Clone, Copy, Debug, PartialEq, Eq)]
pub enum Sending {
    /// The carrier took it to the next hop.
    Sent,
    /// No route leads to its destination.
    NoRoute,
    /// The carrier had no room for it.
    Dropped,
}
