//! The circuit of a session. Used by `stage`, and by `node_core`.
use ax_address::Call;

/// A circuit that a session has asked for.
#[derive(Clone, Copy, Debug, PartialEq, Eq)]
pub struct Circuit {
    /// The number of its end here.
    pub id: u64,
    /// The node that was asked for.
    pub dest: Call,
    /// The session has closed it.
    pub closed: bool,
}
