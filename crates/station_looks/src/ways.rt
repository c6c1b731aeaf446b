//! Ways to a node, and the best of them. Called by `naming` and `showing`, and by the crates that serve users.
ghost use Rattle.std.specs.Prelude.{◌≡◌, slice_get, None};
ghost use Rattle.std.specs.Option.{option_to_list};
ghost use Rattle.station_members.specs.Standing.{MembersStand};
ghost use Rattle.station_members.specs.States.{State};
ghost use Rattle.station_looks.specs.Naming as naming;

use crate::nodes::best_at;
use ax_address::Call;
use route_table::Route;
use station_members::Members;

/// A way to a node: a member, and its best route to it.
#[derive(Clone, Copy, Debug, PartialEq, Eq)]
pub(crate) struct Way {
    pub(crate) member: usize,
    pub(crate) route: Route,
}

/// The member whose route to a node is best, the first on a tie, of all but one.
pub fn best_member(members: &Members, dest: &Call, but: Option<usize>) -> Option<usize>
    ensures { (s : State) → MembersStand members.now s → result ≡ naming.best_member but dest.now s }
{
    match best_way(members, dest, but) {
        Some(way) => Some(way.member),
        None => None,
    }
}

/// The best of their ways.
fn best_way(members: &Members, dest: &Call, but: Option<usize>) -> Option<Way>
    ensures { (s : State) → MembersStand members.now s → result ≡ naming.best_of (naming.ways_to but dest.now s) }
{
    let mut best = None;
    for at in 0..members.len() {
        best = better(best, way_at(members, at, dest, but));
    }
    best
}

/// The way of the first member that has one.
pub(crate) fn first_way(members: &Members, dest: &Call) -> Option<Way>
    ensures { (s : State) → MembersStand members.now s → result ≡ slice_get (naming.ways_to None dest.now s) 0 }
{
    for at in 0..members.len() {
        if let Some(way) = way_at(members, at, dest, None) {
            return Some(way);
        }
    }
    None
}

/// The way of the member at a place, unless that is the one that is left out.
fn way_at(members: &Members, at: usize, dest: &Call, but: Option<usize>) -> Option<Way>
    ensures { (s : State) → MembersStand members.now s → option_to_list result ≡ naming.ways_at but dest.now s at }
{
    if is_but(but, at) {
        return None;
    }
    match best_at(members, at, dest) {
        Some(route) => Some(Way { member: at, route }),
        None => None,
    }
}

/// Whether this member is left out.
pub(crate) fn is_but(but: Option<usize>, at: usize) -> bool
    ensures { result ≡ naming.is_but but at }
{
    match but {
        Some(but) => but == at,
        None => false,
    }
}

/// The way of the higher quality, the first where these are equal.
pub(crate) fn better(one: Option<Way>, other: Option<Way>) -> Option<Way>
    ensures { result ≡ naming.better one other }
{
    match (one, other) {
        (Some(one), Some(other)) => Some(better_way(one, other)),
        (Some(one), None) => Some(one),
        (None, other) => other,
    }
}

fn better_way(one: Way, other: Way) -> Way
    ensures { result ≡ naming.better_way one other }
{
    if one.route.quality < other.route.quality {
        other
    } else {
        one
    }
}
