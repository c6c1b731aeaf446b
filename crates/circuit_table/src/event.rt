//! What a set tells. Used by `holder`, `pump`, `receiving` and `untold`, and by `node_core`, `circuit_set` and `trace_lines`.
use ax_address::Call;
use circuit_l4::{EndFacts, EndNotice, Pair};
use l3_datagram::{Datagram, Routed};

/// What has happened at a node's circuits. An end is named by its number.
#[derive(Debug, Drop, PartialEq, Eq)]
pub enum SetEvent {
    /// An end was made, for a circuit with a node. A responder's end has the datagram of the request that opened it.
    Made {
        id: u64,
        pair: Pair,
        partner: Call,
        request: Option<Datagram>,
    },
    /// An end has sent a datagram: it was handed down, or would have been where a route led to its destination. That of an
    /// information message has the number of its fragment. A refusal, which no end sends, has number 0.
    Sent {
        id: u64,
        number: Option<u64>,
        datagram: Datagram,
    },
    /// An end has taken in a datagram of its partner's node.
    Heeded {
        id: u64,
        datagram: Datagram,
    },
    /// What has become of a circuit.
    Notice {
        id: u64,
        notice: EndNotice,
    },
    /// A datagram came to nothing: the one that was sent last, or one that came up.
    Dropped(Routed),
    /// A neighbour was lost.
    Lost(Call),
    /// An end is held no longer.
    Gone {
        id: u64,
        facts: EndFacts,
    },
}
