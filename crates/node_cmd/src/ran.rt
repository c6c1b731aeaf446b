//! What a command leaves of what it ran. Used by most files here, and by `wursthatch`.
use net_replay::Trace;
use node_core::Node;

/// What was run.
#[derive(Drop)]
pub enum Ran {
    /// Nothing.
    Nothing,
    /// A network.
    Replayed(Trace),
    /// A live node.
    Served(Node),
}
