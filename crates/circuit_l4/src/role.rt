//! Which end of a circuit an end is. Used by `beginning`, `end`, `expiry` and `machine`.
use ax_address::Call;

/// Which end of a circuit it is.
#[derive(Clone, Copy, Debug, PartialEq, Eq)]
pub enum Role {
    /// The end that asks for the circuit, for this user at this node.
    Requester { user: Call, node: Call },
    /// The end that was asked.
    Responder,
}
