//! What a session has yet to tell its user. Used by `node_core`.
use ax_address::Call;
use node_prompt::Trouble;

/// What a user is told of its circuit, until there is room for it.
#[derive(Clone, Copy, Debug, PartialEq, Eq)]
pub enum Reply {
    /// The circuit to this node stands.
    Connected(Call),
    /// The circuit to this node doesn't stand, for this reason.
    Refused(Call, Trouble),
    /// The circuit to this node has ended.
    Ended(Call),
}
