//! What is seen of the nodes of members: their routes, links and ends. Used by most files here.
ghost use Rattle.std.specs.Prelude.{◌≡◌, Some, IfOk};
ghost use Rattle.std.specs.Option.{option_copied, option_map};
ghost use Rattle.ax_link.specs.Opening as links_of;
ghost use Rattle.link_table.specs.Standing.{held_of};
ghost use Rattle.node_core.specs.Standing.{NodeStands};
ghost use Rattle.node_model.specs.States.{NodeState};
ghost use Rattle.station_members.specs.Standing.{MembersStand};
ghost use Rattle.station_members.specs.States.{State};
ghost use Rattle.station_looks.specs.Nodes as nodes;
ghost use Rattle.station_looks.specs.Reached as reached;

use crate::adding::push_some;
use arrayvec::ArrayVec;
use ax_address::{Call, Path};
use ax_link::LinkFacts;
use circuit_table::MAX_ENDS;
use link_table::LinkOf;
use node_core::Node;
use radio_base::NoMemory;
use route_table::Route;
use station_members::Members;
use std::alloc::Global;

/// Whether a member has this call.
pub(crate) fn is_member(members: &Members, call: &Call) -> bool
    ensures { (s : State) → MembersStand members.now s → result ≡ nodes.is_member call.now s }
{
    members.place_of(call).is_some()
}

/// The routes of the member at a place to a node: the best three, the best first.
pub(crate) fn routes_at(members: &Members, at: usize, dest: &Call) -> ArrayVec<Route, 3>
    ensures { (s : State) → MembersStand members.now s → result.items ≡ nodes.routes_at at dest.now s }
{
    match members.node(at) {
        Some(node) => routes_of(node, dest),
        None => ArrayVec::new(),
    }
}

fn routes_of(node: &Node, dest: &Call) -> ArrayVec<Route, 3>
    ensures { (n : NodeState) → NodeStands node.now n → result.items ≡ nodes.node_routes dest.now n }
{
    node.routes().routes(dest)
}

/// The best of these.
pub(crate) fn best_at(members: &Members, at: usize, dest: &Call) -> Option<Route>
    ensures { (s : State) → MembersStand members.now s → result ≡ nodes.best_at at dest.now s }
{
    routes_at(members, at, dest).first().copied()
}

/// The destinations of the member at a place, in the order of their calls.
pub(crate) fn destinations_at(
    alloc: Global,
    members: &Members,
    at: usize,
) -> Result<Vec<Call>, NoMemory>
    ensures { IfOk result (λ calls. (s : State) → MembersStand members.now s → calls.items ≡ nodes.destinations_at at s) }
{
    match members.node(at) {
        Some(node) => Ok(destinations_of(alloc, node)?),
        None => Ok(Vec::new(alloc)),
    }
}

fn destinations_of(alloc: Global, node: &Node) -> Result<Vec<Call>, NoMemory>
    ensures { IfOk result (λ calls. (n : NodeState) → NodeStands node.now n → calls.items ≡ nodes.node_destinations n) }
{
    let calls = node.routes().destinations(alloc)?;
    Ok(calls)
}

/// The routes of the member at a place to each of its destinations.
pub(crate) fn all_routes_at(
    alloc: Global,
    members: &Members,
    at: usize,
) -> Result<Vec<Route>, NoMemory>
    ensures { IfOk result (λ routes. (s : State) → MembersStand members.now s → routes.items ≡ nodes.all_routes_at at s) }
{
    match members.node(at) {
        Some(node) => Ok(all_routes_of(alloc, node)?),
        None => Ok(Vec::new(alloc)),
    }
}

fn all_routes_of(alloc: Global, node: &Node) -> Result<Vec<Route>, NoMemory>
    ensures { IfOk result (λ routes. (n : NodeState) → NodeStands node.now n → routes.items ≡ nodes.all_node_routes n) }
{
    let routes = node.routes().routes_of_all(alloc)?;
    Ok(routes)
}

/// The peers of the links of the member at a place, in the order of their making.
pub(crate) fn peers_at(members: &Members, at: usize) -> ArrayVec<Call, 64>
    ensures { (s : State) → MembersStand members.now s → result.items ≡ nodes.peers_at at s }
{
    match members.node(at) {
        Some(node) => peers_of(node),
        None => ArrayVec::new(),
    }
}

fn peers_of(node: &Node) -> ArrayVec<Call, 64>
    ensures { (n : NodeState) → NodeStands node.now n → result.items ≡ nodes.node_peers n }
{
    node.links().peers()
}

/// What the link of the member at a place with a peer tells of itself, where one stands.
pub(crate) fn link_at(members: &Members, at: usize, peer: &Call) -> Option<LinkFacts>
    ensures { (s : State) → MembersStand members.now s
        → option_map nodes.told_of result ≡ option_map nodes.seen_link (nodes.link_at at peer.now s) }
{
    match members.node(at) {
        Some(node) => link_of(node, peer),
        None => None,
    }
}

fn link_of(node: &Node, peer: &Call) -> Option<LinkFacts>
    ensures { (n : NodeState) → NodeStands node.now n
        → option_map nodes.told_of result ≡ option_map nodes.seen_link (nodes.node_link peer.now (Some n)) }
{
    match node.links().link(peer) {
        Some(link) => Some(facts_of(link)),
        None => None,
    }
}

fn facts_of(link: &LinkOf) -> LinkFacts
    ensures { result ≡ links_of.facts_of (held_of link.now) }
{
    match link {
        LinkOf::Eight(link) => link.facts(),
        LinkOf::Wide(link) => link.facts(),
    }
}

/// The first repeater of the link of the member at a place with a peer, else the peer.
pub(crate) fn first_hop(members: &Members, at: usize, peer: &Call) -> Call
    ensures { (s : State) → MembersStand members.now s → result ≡ reached.first_hop at peer.now s }
{
    match path_at(members, at, peer) {
        Some(path) => hop_among(peer, path),
        None => *peer,
    }
}

fn hop_among(peer: &Call, path: &Path) -> Call
    ensures { result ≡ reached.hop_among peer.now path.now.items }
{
    match path.first() {
        Some(repeater) => repeater.call,
        None => *peer,
    }
}

/// The repeaters over which that link goes.
fn path_at<'a>(members: &'a Members, at: usize, peer: &Call) -> Option<&'a Path>
    ensures { (s : State) → MembersStand members.now s → option_copied result ≡ nodes.path_at at peer.now s }
{
    match members.node(at) {
        Some(node) => path_of(node, peer),
        None => None,
    }
}

fn path_of<'a>(node: &'a Node, peer: &Call) -> Option<&'a Path>
    ensures { (n : NodeState) → NodeStands node.now n → option_copied result ≡ nodes.node_path peer.now (Some n) }
{
    node.links().link_path(peer)
}

/// The numbers of the ends of the member at a place.
pub(crate) fn ends_at(alloc: Global, members: &Members, at: usize) -> Result<Vec<u64>, NoMemory>
    ensures { IfOk result (λ ends. (s : State) → MembersStand members.now s → ends.items ≡ nodes.ends_at at s) }
{
    match members.node(at) {
        Some(node) => Ok(ends_of(alloc, node)?),
        None => Ok(Vec::new(alloc)),
    }
}

fn ends_of(alloc: Global, node: &Node) -> Result<Vec<u64>, NoMemory>
    ensures { IfOk result (λ ends. (n : NodeState) → NodeStands node.now n → ends.items ≡ nodes.node_ends n) }
{
    let mut ends = Vec::new(alloc);
    for nth in 0..MAX_ENDS {
        push_some(node.circuits().held(nth), &mut ends)?;
    }
    Ok(ends)
}
