//! The nodes of the members. Called by the backplane.
ghost use Rattle.std.specs.Prelude.{◌≡◌, ◌^◌, ◌<◌, ◌≢◌, length, slice_get, List, Some, true, IfOk, IfSome, OnErr, OnOk, IsTrue};
ghost use Rattle.std.specs.Option.{option_map};
ghost use Rattle.kiss_framing.specs.Stream.{framed};
ghost use Rattle.link_table.specs.Standing.{NotNoMemory};
ghost use Rattle.node_core.specs.Acts.{act_of};
ghost use Rattle.node_core.specs.Bridged as inputs;
ghost use Rattle.node_core.specs.Qualities.{QualityNotNoMemory};
ghost use Rattle.node_core.specs.Standing.{IsAnswer, NodeStands, entry_of};
ghost use Rattle.node_model.specs.States.{NodeState, frames};
ghost use Rattle.station_members.specs.Nodes as at_nodes;
ghost use Rattle.station_members.specs.Nodes.{AllStand, NodesGo, NodesStay};

use ax_address::{Alias, Call, Path};
use link_table::{PathRefusal, Written};
use node_core::{ActDone, ActRefusal, Node, NodeEntry, QualityRefusal, UserAct};
use radio_base::{Moment, NoMemory};
use std::alloc::Global;

/// A frame is the input of the node at a place.
pub(crate) fn give_frame(
    nodes: &mut Vec<Node>,
    at: usize,
    octets: &[u8],
    now: Moment,
) -> Result<(), NoMemory>
    ensures goes { OnOk result (NodesGo at (inputs.after (inputs.Bytes now.0 (framed 0 0 octets.now))) nodes.old.items nodes.new.items) }
    ensures count { length nodes.new.items ≡ length nodes.old.items }
{
    if at < nodes.len() {
        nodes[at].kiss_frame(octets, now)?;
        Ok(())
    } else {
        Ok(())
    }
}

/// Time passes for the node at a place.
pub(crate) fn give_tick(nodes: &mut Vec<Node>, at: usize, now: Moment) -> Result<(), NoMemory>
    ensures goes { OnOk result (NodesGo at (inputs.after (inputs.Ticks now.0)) nodes.old.items nodes.new.items) }
    ensures count { length nodes.new.items ≡ length nodes.old.items }
{
    if at < nodes.len() {
        nodes[at].tick(now)?;
        Ok(())
    } else {
        Ok(())
    }
}

/// Something is done at the node at a place.
pub(crate) fn give_act(
    nodes: &mut Vec<Node>,
    at: usize,
    act: &UserAct,
    now: Moment,
) -> Result<ActDone, ActRefusal>
    ensures answer { IsAnswer result → (ns : List NodeState) → AllStand nodes.old.items ns
        → result ≡ at_nodes.answer_of now.0 (act_of act.now) (slice_get ns at) }
    ensures goes { IsAnswer result
        → NodesGo at (inputs.after (inputs.Acts now.0 (act_of act.now))) nodes.old.items nodes.new.items }
    ensures count { length nodes.new.items ≡ length nodes.old.items }
{
    if at < nodes.len() {
        nodes[at].act(act, now)
    } else {
        Err(ActRefusal::NoEnd)
    }
}

/// The same, where its answer doesn't matter.
pub(crate) fn give_act_only(
    nodes: &mut Vec<Node>,
    at: usize,
    act: &UserAct,
    now: Moment,
) -> Result<(), NoMemory>
    ensures goes { OnOk result (NodesGo at (inputs.after (inputs.Acts now.0 (act_of act.now))) nodes.old.items nodes.new.items) }
    ensures count { length nodes.new.items ≡ length nodes.old.items }
{
    match give_act(nodes, at, act, now) {
        Ok(_) => Ok(()),
        Err(ActRefusal::NoMemory) => Err(NoMemory),
        Err(_) => Ok(()),
    }
}

/// All frames that wait at the node at a place are fetched.
pub(crate) fn fetch_frames(
    alloc: Global,
    nodes: &mut Vec<Node>,
    at: usize,
) -> Result<Vec<Written>, NoMemory>
    ensures frames { IfOk result (λ fetched. (ns : List NodeState) → AllStand nodes.old.items ns
        → fetched.items ≡ at_nodes.frames_of (slice_get ns at)) }
    ensures goes { OnOk result (NodesGo at at_nodes.all_fetched nodes.old.items nodes.new.items) }
    ensures count { length nodes.new.items ≡ length nodes.old.items }
{
    if at < nodes.len() {
        let fetched = fetch_all(alloc, &mut nodes[at])?;
        Ok(fetched)
    } else {
        Ok(Vec::new(alloc))
    }
}

fn fetch_all(alloc: Global, node: &mut Node) -> Result<Vec<Written>, NoMemory>
    ensures frames { IfOk result (λ fetched. (n : NodeState) → NodeStands node.old n → fetched.items ≡ frames n.station) }
    ensures goes { OnOk result ((n : NodeState) → NodeStands node.old n → NodeStands node.new (at_nodes.all_fetched n)) }
{
    node_core::laws::fetching_empties();
    let mut fetched = Vec::new(alloc);
    while let Some(frame) = node.next_frame() {
        fetched.push(frame)?;
    }
    Ok(fetched)
}

/// The place of the first node that has something to tell.
pub(crate) fn first_telling(nodes: &[Node]) -> Option<usize>
    ensures place { (ns : List NodeState) → AllStand nodes.now ns → result ≡ at_nodes.first_telling ns }
    ensures within { IfSome result (λ at. at < length nodes.now) }
{
    match nodes {
        [] => None,
        [first, rest @ ..] => {
            if first.has_entries() {
                Some(0)
            } else {
                behind(first_telling(rest))
            }
        }
    }
}

fn behind(place: Option<usize>) -> Option<usize>
    requires { IfSome place (λ at. at < 2 ^ 63) }
    ensures { result ≡ at_nodes.behind place }
{
    match place {
        Some(at) => Some(at + 1),
        None => None,
    }
}

/// What the node at a place has to tell first.
pub(crate) fn fetch_entry(nodes: &mut Vec<Node>, at: usize) -> Option<NodeEntry>
    ensures answer { (ns : List NodeState) → AllStand nodes.old.items ns
        → option_map entry_of result ≡ at_nodes.first_entry (slice_get ns at) }
    ensures goes { NodesGo at (inputs.after inputs.Fetches_entry) nodes.old.items nodes.new.items }
    ensures count { length nodes.new.items ≡ length nodes.old.items }
{
    if at < nodes.len() {
        nodes[at].trace_entry()
    } else {
        None
    }
}

/// Whether a link with this peer stands at the node at a place.
pub(crate) fn has_link(nodes: &[Node], at: usize, peer: &Call) -> bool
    ensures { (ns : List NodeState) → AllStand nodes.now ns → result ≡ at_nodes.has_link peer.now (slice_get ns at) }
{
    if at < nodes.len() {
        node_has_link(&nodes[at], peer)
    } else {
        false
    }
}

fn node_has_link(node: &Node, peer: &Call) -> bool
    ensures { (n : NodeState) → NodeStands node.now n → result ≡ at_nodes.has_link peer.now (Some n) }
{
    node.links().link(peer).is_some()
}

/// Sets the repeaters over which the node at a place reaches a peer.
pub(crate) fn give_path(
    nodes: &mut Vec<Node>,
    at: usize,
    peer: &Call,
    path: &Path,
) -> Result<(), PathRefusal>
    ensures answer { NotNoMemory result → (ns : List NodeState) → AllStand nodes.old.items ns
        → result ≡ at_nodes.path_answer_of peer.now path.now (slice_get ns at) }
    ensures goes { OnOk result (NodesGo at (inputs.after (inputs.Paths peer.now path.now)) nodes.old.items nodes.new.items) }
    ensures err { OnErr result (NotNoMemory result → NodesStay nodes.old.items nodes.new.items) }
    ensures count { length nodes.new.items ≡ length nodes.old.items }
{
    if at < nodes.len() {
        nodes[at].set_path(peer, path)
    } else {
        Err(PathRefusal::Full)
    }
}

/// Sets the quality of the path from the node at a place to a neighbour.
pub(crate) fn give_quality(
    nodes: &mut Vec<Node>,
    at: usize,
    neighbour: &Call,
    quality: u8,
) -> Result<(), QualityRefusal>
    ensures answer { QualityNotNoMemory result → (ns : List NodeState) → AllStand nodes.old.items ns
        → result ≡ at_nodes.quality_answer_of neighbour.now (slice_get ns at) }
    ensures goes { OnOk result (NodesGo at (inputs.after (inputs.Qualities neighbour.now quality)) nodes.old.items nodes.new.items) }
    ensures err { OnErr result (QualityNotNoMemory result → NodesStay nodes.old.items nodes.new.items) }
    ensures count { length nodes.new.items ≡ length nodes.old.items }
{
    if at < nodes.len() {
        nodes[at].set_quality(neighbour, quality)
    } else {
        Err(QualityRefusal::Full)
    }
}
