//! Where events stand. Called by `circuits`, `events` and `mails`.
ghost use Rattle.std.specs.Prelude.{◌≡◌};
ghost use Rattle.trace_lines.specs.Stands.{at_node};

/// Where an event stands: its number in the trace, from 1, and the number of the line at which it came.
#[derive(Clone, Copy, Debug, PartialEq, Eq)]
pub(crate) struct Stand {
    pub(crate) event: u64,
    pub(crate) line: u32,
}

/// Where an event of a node stands, and the number of the node.
#[derive(Clone, Copy, Debug, PartialEq, Eq)]
pub(crate) struct AtNode {
    pub(crate) stand: Stand,
    pub(crate) node: u8,
}

impl Stand {
    /// The same for an event of this node.
    pub(crate) fn at(self, node: u8) -> AtNode
        ensures { result ≡ at_node self node }
    {
        AtNode { stand: self, node }
    }
}
