//! A user asks for a circuit. Called by `asking`.
ghost use Rattle.std.specs.Prelude.{◌≡◌, IfOk, OnOk};
ghost use Rattle.node_core.specs.Acts.{ConnectFor};
ghost use Rattle.station_lists.specs.Telling.{told_text};
ghost use Rattle.station_lists.specs.declared.told.Told.TheVariants as told;
ghost use Rattle.station_members.specs.States.{act, act_answer};
ghost use Rattle.station_places.specs.Sides as at_sides;
ghost use Rattle.station_places.specs.Sides.{SidesGo, SidesState, SidesStand};
ghost use Rattle.station_users.specs.Connecting as connecting;
ghost use Rattle.station_users.specs.Standing.{AtGoes};
ghost use Rattle.station_users.specs.Telling as telling;

use crate::telling::answer;
use crate::turn::Turn;
use ax_address::Call;
use node_core::{ActDone, ActRefusal, UserAct};
use radio_base::{Moment, NoMemory};
use station_lists::{ShownNode, Told};
use station_looks::{About, Named, best_member, named_by, shown};
use station_places::Sides;
use station_sessions::{Far, Place, Session, Unsent};
use std::alloc::Global;

/// `Connect X`: a member; a node, by an alias that a member knows or by its call; and else nothing.
#[tactic(auto, unfolding(crate::specs::Connecting::connect))]
pub(crate) fn connect(
    to: &[u8],
    about: &About,
    session: &mut Session,
    sides: &mut Sides,
    turn: Turn,
) -> Result<(), NoMemory>
    ensures { OnOk result
        (AtGoes (connecting.connect to.now about.now turn.moment) sides.old session.old sides.new session.new) }
{
    match named_by(turn.alloc, &sides.members, to, about.post)? {
        Named::Member(at) => {
            say_ours(is_post_at(at, about.post), session, sides, turn)?;
            Ok(())
        }
        Named::Node(dest) => {
            to_node(&dest, to, about, session, sides, turn)?;
            Ok(())
        }
        Named::Nothing => {
            answer(session, sides, &Told::BadCall(to), turn)?;
            Ok(())
        }
    }
}

/// Whether the member at a place is the one that keeps mail.
pub(crate) fn is_post_at(at: usize, post: Option<usize>) -> bool
    ensures { result ≡ connecting.is_post_at at post }
{
    match post {
        Some(post) => post == at,
        None => false,
    }
}

/// What is told of a member: where it keeps mail, that there is none here.
fn say_ours(
    post: bool,
    session: &mut Session,
    sides: &mut Sides,
    turn: Turn,
) -> Result<(), NoMemory>
    ensures { OnOk result (AtGoes (connecting.say_ours post turn.moment) sides.old session.old sides.new session.new) }
{
    if post {
        answer(session, sides, &Told::NoMail, turn)?;
        Ok(())
    } else {
        answer(session, sides, &Told::ThisNode, turn)?;
        Ok(())
    }
}

/// The member is asked whose route to a node is best.
fn to_node(
    dest: &Call,
    to: &[u8],
    about: &About,
    session: &mut Session,
    sides: &mut Sides,
    turn: Turn,
) -> Result<(), NoMemory>
    ensures { OnOk result
        (AtGoes (connecting.to_node dest.now to.now about.now turn.moment) sides.old session.old sides.new session.new) }
{
    match best_member(&sides.members, dest, about.post) {
        Some(member) => {
            try_circuit(member, dest, session, sides, turn)?;
            Ok(())
        }
        None => {
            answer(session, sides, &Told::NoRoute(to), turn)?;
            Ok(())
        }
    }
}

/// A member asks for a circuit in the user's call.
#[tactic(auto, unfolding(crate::specs::Connecting::try_circuit))]
fn try_circuit(
    member: usize,
    dest: &Call,
    session: &mut Session,
    sides: &mut Sides,
    turn: Turn,
) -> Result<(), NoMemory>
    ensures { OnOk result
        (AtGoes (connecting.try_circuit member dest.now turn.moment) sides.old session.old sides.new session.new) }
{
    let name = shown(&sides.members, dest);
    let made = ask(member, session.user(), dest, sides, turn.moment)?;
    try_made(made, member, name, session, sides, turn)?;
    Ok(())
}

/// A member asks for a circuit in this call. The end that was made for it, if one was.
fn ask(
    member: usize,
    user: Call,
    dest: &Call,
    sides: &mut Sides,
    now: Moment,
) -> Result<Option<u64>, NoMemory>
    ensures end { IfOk result (λ id. (s : SidesState) → SidesStand sides.old s
        → id ≡ connecting.made_in (act_answer now member (ConnectFor user dest.now) s.members)) }
    ensures goes { OnOk result (SidesGo (at_sides.act now member (ConnectFor user dest.now)) sides.old sides.new) }
{
    match sides
        .members
        .act(member, &UserAct::ConnectFor { user, dest: *dest }, now)
    {
        Ok(ActDone::Made(id)) => Ok(Some(id)),
        Err(ActRefusal::NoMemory) => Err(NoMemory),
        Ok(_) | Err(_) => Ok(None),
    }
}

fn try_made(
    made: Option<u64>,
    member: usize,
    name: ShownNode,
    session: &mut Session,
    sides: &mut Sides,
    turn: Turn,
) -> Result<(), NoMemory>
    ensures { OnOk result
        (AtGoes (connecting.try_made made member name turn.moment) sides.old session.old sides.new session.new) }
{
    match made {
        Some(id) => try_at(Place::End { member, id }, &name, session, sides, turn),
        None => answer(session, sides, &Told::NoCircuits, turn),
    }
}

/// Something is tried, and the user is told so.
#[tactic(auto, unfolding(crate::specs::Connecting::try_at))]
pub(crate) fn try_at(
    place: Place,
    name: &ShownNode,
    session: &mut Session,
    sides: &mut Sides,
    turn: Turn,
) -> Result<(), NoMemory>
    ensures { OnOk result (AtGoes (connecting.try_at place name.now turn.moment) sides.old session.old sides.new session.new) }
{
    session.tries(new_far(place, name, turn.alloc));
    say_trying(name, session, sides, turn)?;
    Ok(())
}

fn say_trying(
    name: &ShownNode,
    session: &mut Session,
    sides: &mut Sides,
    turn: Turn,
) -> Result<(), NoMemory>
    ensures { OnOk result
        (AtGoes (telling.answer (told_text (told.Trying name.now)) turn.moment) sides.old session.old sides.new session.new) }
{
    answer(session, sides, &Told::Trying(*name), turn)?;
    Ok(())
}

fn new_far(place: Place, name: &ShownNode, alloc: Global) -> Far
    ensures { result ≡ connecting.new_far place name.now }
{
    Far {
        place,
        name: *name,
        unsent: Unsent::new(alloc),
        closed: false,
        failed: false,
        waited: false,
    }
}
