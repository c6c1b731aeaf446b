//! By which port a member reaches another station. Called by `neighbours`, `users` and `links`.
ghost use Rattle.std.specs.Prelude.{◌≡◌};
ghost use Rattle.station_lists.specs.Lists as lists;
ghost use Rattle.station_members.specs.Standing.{MembersStand};
ghost use Rattle.station_members.specs.States.{State};
ghost use Rattle.station_looks.specs.Abouts as abouts;
ghost use Rattle.station_looks.specs.Reached as reached;

use crate::About;
use crate::nodes::{first_hop, is_member};
use ax_address::Call;
use station_lists::Place;
use station_members::Members;

/// By which port the member at a place reaches a neighbour.
pub(crate) fn neighbour_place<'a>(
    members: &Members,
    about: &'a About,
    at: usize,
    call: &Call,
) -> Place<'a>
    ensures { (s : State) → MembersStand members.now s
        → lists.place result ≡ lists.place (reached.neighbour_place at call.now about.now s) }
{
    place_over(members, about, call, at, call)
}

/// The port of the link of the member at a place with a peer: that of the first hop of its path.
pub(crate) fn link_place<'a>(
    members: &Members,
    about: &'a About,
    at: usize,
    peer: &Call,
) -> Place<'a>
    ensures { (s : State) → MembersStand members.now s
        → lists.place result ≡ lists.place (reached.link_place at peer.now about.now s) }
{
    place_over(members, about, &first_hop(members, at, peer), at, peer)
}

/// By the port that the member at a place remembers for a hop, where the station itself is no member.
fn place_over<'a>(
    members: &Members,
    about: &'a About,
    hop: &Call,
    at: usize,
    call: &Call,
) -> Place<'a>
    ensures { (s : State) → MembersStand members.now s
        → lists.place result ≡ lists.place (reached.place_over hop.now at call.now about.now s) }
{
    if is_member(members, call) {
        Place::Backplane
    } else {
        port_place(about, members.port_of(at, hop))
    }
}

fn port_place(about: &About, port: Option<u8>) -> Place<'_>
    ensures { lists.place result ≡ lists.place (reached.port_place port about.now) }
{
    match port {
        Some(port) => named_place(about, port),
        None => Place::Unknown,
    }
}

fn named_place(about: &About, port: u8) -> Place<'_>
    ensures { lists.place result ≡ lists.place (reached.named_place (abouts.port_name port about.now)) }
{
    match about.names().get(port as usize) {
        Some(name) => Place::Port(name.as_str()),
        None => Place::Unknown,
    }
}
