//! Where an end of a circuit stands. Used by most files here, and by `circuit_table`, `node_core` and the replay.

/// Where an end of a circuit stands.
///
/// ```text
/// requester / Request          responder / Accept
///     |                              |
///     v            Accept            v
/// +------------+ ------------> +-----------+  closing, all acknowledged / Disconnect   +---------+
/// | Connecting |               |    Up     | ----------------------------------------> | Closing |
/// +------------+               +-----------+                                           +---------+
///     | Refuse; retries              | Disconnect / Disconnected; retries;                  | Disconnected; retries;
///     |                              | oversize; inactive                                   | Disconnect / Disconnected
///     v                              v                                                      v
/// +---------------------------------------------------------------------------------------------+
/// |                                            Ended                                            |
/// +---------------------------------------------------------------------------------------------+
/// ```
#[derive(Clone, Copy, Debug, PartialEq, Eq)]
pub enum EndPhase {
    /// A request was put out, and its answer is awaited.
    Connecting,
    /// Text goes both ways.
    Up,
    /// All text is acknowledged and a disconnect request was put out, and its answer is awaited.
    Closing,
    /// The circuit has ended.
    Ended,
}
