//! Where the user of a session is. Used by `node_core`.
use ax_address::Call;

/// Where the user of a session is.
#[derive(Clone, Copy, Debug, PartialEq, Eq)]
pub enum User {
    /// At the other end of the circuit that has opened the end of this number.
    AtEnd(u64),
    /// At the other end of the link with this peer.
    AtLink(Call),
}
