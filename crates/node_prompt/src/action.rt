//! What is to be done for a line. Used by `prompt`, and by `node_core`.
use crate::sight::Sight;
use ax_address::Call;
use l3_datagram::Message;

/// What is to be done for a line.
#[derive(Debug, Drop, PartialEq, Eq)]
pub enum Action {
    /// This text goes to the user.
    Say(Message),
    /// What there is to see of this goes to the user.
    Show(Sight),
    /// A circuit to this destination is tried.
    Connect(Call),
    /// This text goes to the user, and then the user's side is closed.
    Bye(Message),
    Nothing,
}
