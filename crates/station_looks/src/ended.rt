//! Whether a user is shown: his side stands. Called by `users` and `stats`.
ghost use Rattle.std.specs.Prelude.{◌≡◌, Some};
ghost use Rattle.node_core.specs.Standing.{NodeStands};
ghost use Rattle.node_model.specs.States.{NodeState};
ghost use Rattle.node_model.specs.Users as users;
ghost use Rattle.station_members.specs.Standing.{MembersStand};
ghost use Rattle.station_members.specs.States.{State};
ghost use Rattle.station_looks.specs.Ended as ended;

use circuit_l4::{EndFacts, EndPhase};
use node_core::Node;
use station_members::Members;
use station_sessions::{Place, Session};

/// Whether the user of a session is shown among the users.
pub(crate) fn is_user(members: &Members, session: &Session) -> bool
    ensures { (s : State) → MembersStand members.now s → result ≡ ended.is_user s session.now }
{
    session.is_shown(has_ended(members, &session.place()))
}

/// Whether it is the end of a circuit that has ended.
fn has_ended(members: &Members, place: &Place) -> bool
    ensures { (s : State) → MembersStand members.now s → result ≡ ended.has_ended place.now s }
{
    match place {
        Place::End { member, id } => end_has_ended(members, *member, *id),
        Place::Link { .. } => false,
        Place::Console(_) => false,
    }
}

/// Whether the circuit of an end has ended, or no such end is held.
fn end_has_ended(members: &Members, at: usize, id: u64) -> bool
    ensures { (s : State) → MembersStand members.now s → result ≡ ended.end_has_ended at id s }
{
    match members.node(at) {
        Some(node) => node_ended(node, id),
        None => true,
    }
}

fn node_ended(node: &Node, id: u64) -> bool
    ensures { (n : NodeState) → NodeStands node.now n → result ≡ ended.node_ended id (Some n) }
{
    has_ended_by(node.facts(id))
}

fn has_ended_by(facts: Option<EndFacts>) -> bool
    ensures { result ≡ users.ended_by facts }
{
    match facts {
        Some(facts) => matches!(facts.phase, EndPhase::Ended),
        None => true,
    }
}
