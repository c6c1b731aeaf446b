//! What there is to see of a node. Used by `prompt`, and by `node_core`.
use arrayvec::ArrayVec;
use ax_address::Call;
use route_table::Route;

/// What there is to see of it.
#[derive(Debug, Drop)]
pub enum View {
    /// A route to each of the first 64 destinations, and how many destinations there are beside those.
    Nodes {
        routes: ArrayVec<Route, 64>,
        more: usize,
    },
    /// The routes to a destination.
    RoutesTo {
        dest: Call,
        routes: ArrayVec<Route, 3>,
    },
    /// The routes of the first 64 destinations that have one over themselves.
    Routes(ArrayVec<Route, 64>),
    /// The partner of each end that is held.
    Users(ArrayVec<Call, 64>),
}
