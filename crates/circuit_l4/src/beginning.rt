//! How an end of a circuit begins. Used by `calls` and `end`.
use crate::pair::Pair;
use crate::phase::EndPhase;
use crate::role::Role;

/// How a machine begins.
#[derive(Clone, Copy, Debug, PartialEq, Eq)]
pub struct Beginning {
    pub role: Role,
    pub pair: Pair,
    /// The other end's pair, once it is known.
    pub to: Pair,
    pub phase: EndPhase,
    pub window: u8,
}
