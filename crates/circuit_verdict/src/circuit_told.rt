//! What is told of a circuit. Used by `book`, `cause` and `event`, and by the replay.
use ax_address::Call;
use circuit_l4::{EndFacts, EndNotice, Pair};

/// What has happened at a node's circuits. An end is named by its number at its node.
#[derive(Clone, Copy, Debug)]
pub enum CircuitTold<'a> {
    /// An end was made, for a circuit with a node. A responder's end has the datagram of the request that opened it.
    Made {
        id: u64,
        pair: Pair,
        partner: Call,
        request: Option<&'a [u8]>,
    },
    /// An end has sent a datagram, that of an information message with the number of its fragment. A refusal, which no
    /// end sends, has number 0.
    Sent {
        id: u64,
        number: Option<u64>,
        datagram: &'a [u8],
    },
    /// An end has taken in a datagram of its partner's node.
    Heeded {
        id: u64,
        datagram: &'a [u8],
    },
    /// What has become of a circuit.
    Notice {
        id: u64,
        notice: EndNotice,
    },
    /// An end is held no longer.
    Gone {
        id: u64,
        facts: EndFacts,
    },
    /// The node starts again, at this pair.
    Restarted {
        pair: Pair,
    },
    /// The node has lost an end, since it starts again.
    Lost {
        id: u64,
        facts: EndFacts,
    },
}
