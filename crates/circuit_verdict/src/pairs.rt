//! Pairs of ends, by which what is noted of an end is found again. Called by `ends`.
ghost use Rattle.std.specs.Prelude.{◌≡◌};

use ax_address::Call;
use circuit_l4::Pair;

/// A pair of an end, as a key.
#[derive(Clone, Copy, Debug, PartialEq, Eq, Hash)]
pub(crate) struct PairKey {
    pub(crate) index: u8,
    pub(crate) ident: u8,
}

impl PairKey {
    pub(crate) fn of(pair: &Pair) -> PairKey
        ensures { result ≡ record { index = pair.now.index; ident = pair.now.ident } }
    {
        PairKey {
            index: pair.index,
            ident: pair.ident,
        }
    }
}

/// A pair of an end, and the call of the node that gave it.
#[derive(Clone, Copy, Debug, PartialEq, Eq, Hash)]
pub(crate) struct CallPair {
    pub(crate) own: Call,
    pub(crate) pair: PairKey,
}

/// A pair of an end, and the place of the node that gave it among the nodes.
#[derive(Clone, Copy, Debug, PartialEq, Eq, Hash)]
pub(crate) struct NodePair {
    pub(crate) node: u64,
    pub(crate) pair: PairKey,
}

impl CallPair {
    pub(crate) fn of(own: &Call, pair: &Pair) -> CallPair
        ensures { result ≡ record { own = own.now; pair = record { index = pair.now.index; ident = pair.now.ident } } }
    {
        CallPair {
            own: *own,
            pair: PairKey::of(pair),
        }
    }
}

impl NodePair {
    pub(crate) fn of(node: u64, pair: &Pair) -> NodePair
        ensures { result ≡ record { node = node; pair = record { index = pair.now.index; ident = pair.now.ident } } }
    {
        NodePair {
            node,
            pair: PairKey::of(pair),
        }
    }
}
