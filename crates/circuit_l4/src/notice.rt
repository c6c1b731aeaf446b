//! What an end tells of what has become of its circuit. Used by most files here, and by `circuit_table`, `node_core` and crates above.

/// What has become of a circuit.
#[derive(Clone, Copy, Debug, PartialEq, Eq)]
pub enum EndNotice {
    /// The circuit is Up, with this window.
    Opened { window: u8 },
    /// The other end has refused it.
    Refused,
    /// It was closed here: all that was written was acknowledged.
    Closed,
    /// The other end has closed it.
    ClosedByPartner,
    /// The other end hasn't answered.
    FailedRetries,
    /// A message would have had more than 8,192 bytes.
    FailedOversize,
    /// Nothing was written and nothing came for too long.
    FailedInactive,
}
