//! What a user can ask to see of a node. Used by `action` and `prompt`, and by `node_core`.
use ax_address::Call;

/// What a user can ask to see of a node.
#[derive(Clone, Copy, Debug, PartialEq, Eq)]
pub enum Sight {
    /// The destinations.
    Nodes,
    /// The routes to this destination.
    RoutesTo(Call),
    /// The neighbours: the destinations that have a direct route.
    Routes,
    /// The partners of the ends that are held.
    Users,
}
