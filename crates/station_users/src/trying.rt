//! What a session does before its next thing, while a far side is tried. Called by `serving`.
ghost use Rattle.std.specs.Prelude.{◌≡◌, Option, Some, OnOk};
ghost use Rattle.std.specs.Option.{option_copied};
ghost use Rattle.ax_address.specs.Callsign.{Callsign};
ghost use Rattle.node_core.specs.Standing.{NodeStands};
ghost use Rattle.node_model.specs.States.{NodeState};
ghost use Rattle.station_members.specs.Looks.{LentStands};
ghost use Rattle.station_places.specs.Sides.{SidesState, SidesStand};
ghost use Rattle.station_users.specs.Standing.{AtGoes};
ghost use Rattle.station_users.specs.Trying as trying;

use crate::telling::tell;
use crate::texts::need_text;
use crate::turn::Turn;
use ax_address::Call;
use node_core::Node;
use radio_base::NoMemory;
use station_lists::{ShownNode, Told};
use station_places::Sides;
use station_sessions::{Place, Session, Stage};

/// Before its next thing: a try to a node to which no route is left has failed; and while something is tried, the next text of the user is
/// taken, so that its first line can be looked at.
#[tactic(auto, unfolding(crate::specs::Trying::prepare))]
pub(crate) fn prepare(session: &mut Session, sides: &mut Sides, turn: Turn) -> Result<(), NoMemory>
    ensures { OnOk result (AtGoes (trying.prepare turn.moment) sides.old session.old sides.new session.new) }
{
    match what_is_tried(session) {
        Some(far) => {
            prepare_try(&far, session, sides, turn)?;
            Ok(())
        }
        None => Ok(()),
    }
}

/// What is tried: where, and how the user is told of it.
#[derive(Clone, Copy)]
pub(crate) struct Tried {
    pub(crate) place: Place,
    pub(crate) name: ShownNode,
}

fn what_is_tried(session: &Session) -> Option<Tried>
    ensures { result ≡ trying.what_is_tried session.now.stage }
{
    match session.stage() {
        Stage::Trying(far) => Some(Tried {
            place: far.place,
            name: far.name,
        }),
        Stage::AtPrompt | Stage::With(_) => None,
    }
}

fn prepare_try(
    far: &Tried,
    session: &mut Session,
    sides: &mut Sides,
    turn: Turn,
) -> Result<(), NoMemory>
    ensures { OnOk result (AtGoes (trying.prepare_try far.now turn.moment) sides.old session.old sides.new session.new) }
{
    if is_lost(far, sides) {
        fail_try(far, session, sides, turn)?;
        Ok(())
    } else {
        look_at_text(session, sides, turn)?;
        Ok(())
    }
}

/// Whether no route to the node that is tried is left.
fn is_lost(far: &Tried, sides: &Sides) -> bool
    ensures { (s : SidesState) → SidesStand sides.now s → result ≡ trying.is_lost far.now s }
{
    match far.place {
        Place::End { member, .. } => has_no_route(sides.members.node(member), &far.name.call),
        Place::Link { .. } | Place::Console(_) => false,
    }
}

fn has_no_route(node: Option<&Node>, dest: &Call) -> bool
    ensures { (n : Option NodeState) → LentStands (option_copied node.entry) n → result ≡ trying.has_no_route dest.now n }
{
    match node {
        Some(node) => no_hop(node, dest),
        None => true,
    }
}

fn no_hop(node: &Node, dest: &Call) -> bool
    ensures { (n : NodeState) → NodeStands node.now n → result ≡ trying.has_no_route dest.now (Some n) }
{
    node.routes().next_hop(dest).is_none()
}

/// A try to a node to which no route is left has failed.
#[tactic(auto, unfolding(crate::specs::Trying::fail_try))]
fn fail_try(
    far: &Tried,
    session: &mut Session,
    sides: &mut Sides,
    turn: Turn,
) -> Result<(), NoMemory>
    ensures { OnOk result (AtGoes (trying.fail_try far.now turn.moment) sides.old session.old sides.new session.new) }
{
    sides.close_at(&far.place, turn.moment)?;
    session.come_back(turn.moment);
    tell(session, sides, &Told::Failure(far.name), turn.alloc)?;
    Ok(())
}

/// The user's next text is taken, where one waits.
fn look_at_text(session: &mut Session, sides: &mut Sides, turn: Turn) -> Result<(), NoMemory>
    ensures { OnOk result (AtGoes (trying.look_at_text turn.moment) sides.old session.old sides.new session.new) }
{
    if session.has_next_text(sides.has_text(&session.place())) {
        need_text(session, sides, turn)?;
        Ok(())
    } else {
        Ok(())
    }
}
