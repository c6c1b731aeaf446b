//! What is told at a node, event by event. Used by `book`, `cause` and `verdict`, and by the replay.
use crate::circuit_told::CircuitTold;
use ax_address::Call;

/// What is told at a node, which is named by its place among the nodes and by its call.
#[derive(Clone, Copy, Debug)]
pub struct Event<'a> {
    pub node: u64,
    pub own: Call,
    pub told: CircuitTold<'a>,
}

/// An event, and the line of the network file that brought it.
#[derive(Clone, Copy, Debug)]
pub struct Numbered<'a> {
    pub line: u32,
    pub event: Event<'a>,
}
