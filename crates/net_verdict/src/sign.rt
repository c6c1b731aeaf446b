//! By what it shows that an event came too late. `causes` names it, and trace_lines tells it.

/// By what it shows that an event came too late. Events are numbered from 1, in the order of the trace.
#[derive(Clone, Copy, Debug, PartialEq, Eq)]
pub enum Sign {
    /// An end has heeded a datagram that its partner never sent, or has no partner.
    Unsent,
    /// So many messages of the circuit have overtaken the datagram since its latest sending; `allowance` are too many.
    Overtaken {
        sent: u64,
        overtakers: u64,
        allowance: u64,
    },
    /// An end was opened by a request that no end waits for any more.
    Unasked,
    /// This end, neither ended nor lost, still has a partner at the node with the pair that was given.
    Held {
        node: u8,
        end: u64,
    },
}
