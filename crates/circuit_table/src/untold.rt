//! What an end is to tell next. Called by `held_ends`.
ghost use Rattle.std.specs.Prelude.{◌≡◌};
ghost use Rattle.circuit_table.specs.Standing as last;

use crate::SetEvent;
use ax_address::Call;
use circuit_l4::Transport;

/// What is to be told next.
#[derive(Debug, Drop)]
pub(crate) enum Untold {
    Event(SetEvent),
    /// A transport goes out, and that it was sent is told.
    Out {
        id: u64,
        number: Option<u64>,
        to: Call,
        transport: Transport,
    },
}

/// Whether this is the last that an end tells, where it tells something: that it is gone.
pub(crate) fn is_last(told: &Option<Untold>) -> bool
    ensures { result ≡ last.is_last_of told.now }
{
    matches!(
        told,
        Some(Untold::Event(SetEvent::Gone { id: _, facts: _ }))
    )
}
