//! What the definitions promise by themselves. No code calls them.

ghost use Rattle.std.specs.Prelude.{◌≡◌};
ghost use Rattle.station_members.specs.Laws.{BackplaneLosesNothing, MembersAreNodes, MembersAreSmall};

use crate::MAX_MEMBERS;

/// Whatever happens to the members of a station: each member is the node that was made there, after all that it was given, in order, and
/// nothing else. So every law on nodes and circuits holds of it.
pub fn members_are_nodes()
    ensures { MembersAreNodes }
{}

/// And each member was given from each fellow just what that has put out for it, each once, in order.
pub fn backplane_loses_nothing()
    ensures { BackplaneLosesNothing }
{}

/// And what they keep beside their nodes is bounded: there are at most 8 members; of each at most 256 calls whose port it remembers, 64
/// that speak to it by its alias, and 512 frames that it holds back; and of each port the last 32 calls that were heard there. What a node
/// keeps `node_core::laws::kept` tells. Frames that wait to be fetched are left out.
pub fn members_are_small()
    ensures { MembersAreSmall }
{}

/// The most members of a station.
pub fn numbers()
    ensures { MAX_MEMBERS ≡ 8 }
{}
