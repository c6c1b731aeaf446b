//! How a node is shown. Called by `routes`, and by the crates that serve users.
ghost use Rattle.std.specs.Prelude.{◌≡◌};
ghost use Rattle.station_members.specs.Standing.{MembersStand};
ghost use Rattle.station_members.specs.States.{State};
ghost use Rattle.station_looks.specs.Naming as naming;

use crate::ways::first_way;
use ax_address::{Alias, Call};
use station_lists::ShownNode;
use station_members::Members;

/// How a node is shown: by its alias, too, where it is a member or a member knows it, the first of those.
pub fn shown(members: &Members, call: &Call) -> ShownNode
    ensures { (s : State) → MembersStand members.now s → result ≡ naming.shown call.now s }
{
    ShownNode {
        alias: alias_of(members, call),
        call: *call,
    }
}

fn alias_of(members: &Members, call: &Call) -> Option<Alias>
    ensures { (s : State) → MembersStand members.now s → result ≡ naming.alias_of call.now s }
{
    match members.place_of(call) {
        Some(at) => members.alias(at),
        None => known_alias(members, call),
    }
}

/// The alias by which the first member that knows a node knows it, where that isn't blank.
fn known_alias(members: &Members, call: &Call) -> Option<Alias>
    ensures { (s : State) → MembersStand members.now s → result ≡ naming.known_alias call.now s }
{
    match first_way(members, call) {
        Some(way) => unless_blank(way.route.alias),
        None => None,
    }
}

fn unless_blank(alias: Alias) -> Option<Alias>
    ensures { result ≡ naming.unless_blank alias }
{
    if alias.bytes() == *b"      " {
        None
    } else {
        Some(alias)
    }
}
