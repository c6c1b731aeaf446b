//! Broadcasts that lines hold. Called by `heard` and `instructions`.
use nodes_broadcast::Nodes;
use std::alloc::{AllocError, Global};
use std::marker::Model;

/// A broadcast, on the heap: it takes much room, and few lines hold one.
#[derive(Debug, Drop)]
pub struct HeardNodes {
    nodes: Box<Nodes>,
}

impl Model for HeardNodes {
    ghost use Rattle.nodes_broadcast.specs.declared.nodes.Nodes.{Nodes};

    ghost Value = { Nodes };

    ghost view = { λ h. h.nodes.value };
}

impl HeardNodes {
    ghost use Rattle.std.specs.Prelude.{◌≡◌, IfOk};

    /// This broadcast.
    pub(crate) fn new(alloc: Global, nodes: Nodes) -> Result<HeardNodes, AllocError>
        ensures { IfOk result (λ heard. heard ≡ nodes) }
    {
        Ok(HeardNodes {
            nodes: Box::new(alloc, nodes)?,
        })
    }

    /// The broadcast.
    pub fn as_nodes(&self) -> &Nodes
        ensures { result.now ≡ self.now }
    {
        &self.nodes
    }
}
