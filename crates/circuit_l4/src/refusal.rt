//! Why an end doesn't accept a message. Used by `calls` and `end`, and by `circuit_table`, `node_core` and the replay.

/// Why a message isn't accepted.
#[derive(Clone, Copy, Debug, PartialEq, Eq)]
pub enum WriteRefusal {
    /// The circuit isn't Up.
    NotUp,
    /// The circuit is to be closed.
    Closing,
    /// The message has no bytes.
    Empty,
    /// The message has more than 8,192 bytes.
    TooLong,
    /// More than 65,536 bytes would wait for their acknowledgement.
    QueueFull,
    /// The numbers of fragments have come to their end.
    Exhausted,
}
