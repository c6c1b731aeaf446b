//! The nodes that a file declares. Called by most files here, and by `node_settings`, the replay and `trace_lines`.
ghost use Rattle.std.specs.Prelude.{◌≡◌};
ghost use Rattle.network_file.specs.Places as places;

use ax_address::{Alias, Call};

/// A node that a file declares.
#[derive(Clone, Copy, Debug, PartialEq, Eq)]
pub struct Declaration {
    /// From 1 to 16.
    pub node: u8,
    pub call: Call,
    pub alias: Alias,
}

/// A node with that number is declared.
pub fn has_node(declared: &[Declaration], node: u8) -> bool
    ensures { result ≡ places.has_node declared.now node }
{
    declared.iter().any(|other| other.node == node)
}

/// A node with that call is declared.
pub fn has_call(declared: &[Declaration], call: &Call) -> bool
    ensures { result ≡ places.has_call declared.now call.now }
{
    declared.iter().any(|other| other.call == *call)
}
