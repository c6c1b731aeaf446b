//! Why a circuit isn't there. Used by `prompt`, and by `node_model` and `node_core`.

/// Why a circuit that was asked for isn't there.
#[derive(Clone, Copy, Debug, PartialEq, Eq)]
pub enum Trouble {
    /// No route leads to the destination.
    NoRoute,
    /// The destination is this node.
    Own,
    /// This node has as many circuits as it can hold.
    Full,
    /// The destination refused the circuit.
    Busy,
    /// The destination didn't answer, or the circuit failed before it stood.
    Failure,
}
