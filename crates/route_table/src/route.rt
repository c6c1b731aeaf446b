//! A route, and the rules of a table. Used by most files here, and by `node_prompt`, `node_core` and crates above.
use ax_address::{Alias, Call};

/// How many usable routes a table holds at most (this project's profile).
pub const MAX_PAIRS: usize = 16_384;

/// What a node goes by. Each is at least 1 in a table.
#[derive(Clone, Copy, Debug, PartialEq, Eq)]
pub struct RouteRules {
    /// A report is live for this many rounds.
    pub life: u8,
    /// A route is broadcast while its count is at least this.
    pub least: u8,
    /// A route is used where its quality, in parts of 256, is at least this.
    pub minq: u8,
}

/// A route to a node, by way of a neighbour.
///
/// Its default is that of its parts, and stands in no table: an unused place of an `ArrayVec` has one.
#[derive(Clone, Copy, Debug, Default, PartialEq, Eq)]
pub struct Route {
    pub dest: Call,
    pub alias: Alias,
    pub neighbour: Call,
    /// From 0, the worst, to 255.
    pub quality: u8,
    /// How many rounds the route has left, and none where it is locked.
    pub count: Option<u8>,
}
