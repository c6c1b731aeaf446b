//! What is seen of the link of a member with a peer. Called by `looks`.
ghost use Rattle.std.specs.Prelude.{◌≡◌, Option, Some};
ghost use Rattle.std.specs.List.{list_any};
ghost use Rattle.std.specs.Option.{option_copied};
ghost use Rattle.ax_address.specs.Callsign.{same_call};
ghost use Rattle.ax_link.specs.Opening as links_of;
ghost use Rattle.link_table.specs.Standing.{held_of};
ghost use Rattle.node_core.specs.Standing.{NodeStands};
ghost use Rattle.node_model.specs.States.{NodeState};
ghost use Rattle.station_members.specs.Looks.{LentStands};
ghost use Rattle.station_places.specs.Links as links;

use ax_address::Call;
use ax_link::LinkFacts;
use link_table::LinkOf;
use node_core::Node;

/// For how many payloads it has room.
pub(crate) fn room(node: Option<&Node>, peer: &Call) -> usize
    ensures { (n : Option NodeState) → LentStands (option_copied node.entry) n → result ≡ links.room peer.now n }
{
    match node {
        Some(node) => node.links().room(peer),
        None => 0,
    }
}

/// Whether a text waits there.
pub(crate) fn has_text(node: Option<&Node>, peer: &Call) -> bool
    ensures { (n : Option NodeState) → LentStands (option_copied node.entry) n → result ≡ links.has_text peer.now n }
{
    match node {
        Some(node) => node_has_text(node, peer),
        None => false,
    }
}

fn node_has_text(node: &Node, peer: &Call) -> bool
    ensures { (n : NodeState) → NodeStands node.now n → result ≡ links.has_text peer.now (Some n) }
{
    is_among(peer, node.links().texts().as_slice())
}

/// Whether a call is one of these.
fn is_among(call: &Call, calls: &[Call]) -> bool
    ensures { result ≡ list_any (same_call call.now) calls.now }
{
    calls.iter().any(|one| *call == *one)
}

/// Whether the peer has set it up.
pub(crate) fn is_called(node: Option<&Node>, peer: &Call) -> bool
    ensures { (n : Option NodeState) → LentStands (option_copied node.entry) n → result ≡ links.is_called peer.now n }
{
    match node {
        Some(node) => node.links().is_called(peer),
        None => false,
    }
}

/// Whether it is being closed from here.
pub(crate) fn is_closing(node: Option<&Node>, peer: &Call) -> bool
    ensures { (n : Option NodeState) → LentStands (option_copied node.entry) n → result ≡ links.is_closing peer.now n }
{
    match node {
        Some(node) => node_is_closing(node, peer),
        None => false,
    }
}

fn node_is_closing(node: &Node, peer: &Call) -> bool
    ensures { (n : NodeState) → NodeStands node.now n → result ≡ links.is_closing peer.now (Some n) }
{
    match node.links().link(peer) {
        Some(link) => facts_of(link).closing,
        None => false,
    }
}

/// What a link tells of itself.
pub fn facts_of(link: &LinkOf) -> LinkFacts
    ensures { result ≡ links_of.facts_of (held_of link.now) }
{
    match link {
        LinkOf::Eight(link) => link.facts(),
        LinkOf::Wide(link) => link.facts(),
    }
}
