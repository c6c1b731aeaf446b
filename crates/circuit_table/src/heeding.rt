//! What an end takes in. Called by `receiving`.
ghost use Rattle.std.specs.Prelude.{◌≡◌};
ghost use Rattle.circuit_table.specs.Sets as spec;

use circuit_l4::{EndPhase, Transport};

/// Whether an end in this phase takes in such a transport of its partner's node.
pub(crate) fn heeds(phase: EndPhase, transport: &Transport) -> bool
    ensures { result ≡ spec.heeds phase transport.now }
{
    match phase {
        EndPhase::Connecting => matches!(transport, Transport::Accept { .. }),
        EndPhase::Up => matches!(
            transport,
            Transport::Disconnect { .. } | Transport::Info { .. } | Transport::InfoAck { .. }
        ),
        EndPhase::Closing => matches!(
            transport,
            Transport::Disconnect { .. } | Transport::Disconnected { .. }
        ),
        EndPhase::Ended => false,
    }
}
