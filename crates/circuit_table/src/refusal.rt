//! Why a set refuses. Used by `held_ends` and `set`, and by `node_core` and `circuit_set`.
use circuit_l4::WriteRefusal;

/// Why no circuit is asked for.
#[derive(Clone, Copy, Debug, PartialEq, Eq)]
pub enum ConnectRefusal {
    /// The node is this one.
    Own,
    /// No route leads to it.
    NoRoute,
    /// 64 ends are held, or the numbers of ends have come to their end.
    Full,
    /// There is no memory.
    NoMemory,
}

/// Why a message isn't accepted.
#[derive(Clone, Copy, Debug, PartialEq, Eq)]
pub enum SetRefusal {
    /// No end of that number is held.
    NoEnd,
    /// The end doesn't accept it.
    Write(WriteRefusal),
    /// Memory ran out in an earlier call.
    NoMemory,
}

/// No end of that number is held.
#[derive(Clone, Copy, Debug, PartialEq, Eq)]
pub struct NoEnd;

/// Why an end isn't discarded.
#[derive(Clone, Copy, Debug, PartialEq, Eq)]
pub enum DiscardRefusal {
    /// No end of that number is held.
    NoEnd,
    /// The circuit hasn't ended.
    NotEnded,
}
