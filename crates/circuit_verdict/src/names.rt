//! Ends, by which what is noted of them is found again. Called by `book` and `ends`.
ghost use Rattle.std.specs.Prelude.{◌≡◌};

use std::marker::Model;

/// An end: its node, by its place among the nodes, and its number there.
#[derive(Clone, Copy, Debug, PartialEq, Eq, PartialOrd, Ord, Hash)]
pub(crate) struct Name {
    pub(crate) node: u64,
    pub(crate) id: u64,
}

impl Model for Name {
    ghost use Rattle.circuit_table.specs.Events.{Name as EndName};

    ghost Value = { EndName };

    ghost view = { λ x. record { node = x.node; id = x.id } };

    ghost inverse = { λ x. record { node = x.node; id = x.id } };
}

impl Name {
    pub(crate) fn node(&self) -> u64
        ensures { result ≡ self.now.node }
    {
        self.node
    }
}
