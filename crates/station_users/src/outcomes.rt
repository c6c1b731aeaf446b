//! What becomes of the far side of a session. Called by `hearing`.
ghost use Rattle.std.specs.Prelude.{◌≡◌, OnOk};
ghost use Rattle.station_lists.specs.Telling.{told_text};
ghost use Rattle.station_places.specs.Sides.{SidesGo};
ghost use Rattle.station_users.specs.Outcomes as outcomes;
ghost use Rattle.station_users.specs.Standing.{AtGoes};

use crate::telling::tell;
use crate::texts::forget_texts;
use crate::turn::Turn;
use ax_address::Call;
use ax_link::LinkNotice;
use circuit_l4::EndNotice;
use node_core::UserAct;
use radio_base::{Moment, NoMemory};
use station_lists::{ShownNode, Told};
use station_places::Sides;
use station_sessions::{Far, Session, Stage};

/// Something has become of its circuit.
pub(crate) fn hear_notice(
    notice: EndNotice,
    session: &mut Session,
    sides: &Sides,
    turn: Turn,
) -> Result<(), NoMemory>
    ensures { OnOk result (AtGoes (outcomes.hear_notice notice turn.moment) sides.now session.old sides.now session.new) }
{
    match notice {
        EndNotice::Opened { .. } => connected(session, sides, turn),
        EndNotice::Refused => refused(session, sides, turn),
        EndNotice::Closed | EndNotice::ClosedByPartner => {
            circuit_ended(false, session, sides, turn)
        }
        EndNotice::FailedRetries | EndNotice::FailedOversize | EndNotice::FailedInactive => {
            circuit_ended(true, session, sides, turn)
        }
    }
}

/// The user is at the prompt again, and is told why.
fn back(why: &Told<'_>, session: &mut Session, sides: &Sides, turn: Turn) -> Result<(), NoMemory>
    ensures { OnOk result
        (AtGoes (outcomes.back (told_text why.now) turn.moment) sides.now session.old sides.now session.new) }
{
    session.come_back(turn.moment);
    tell(session, sides, why, turn.alloc)?;
    Ok(())
}

/// How the user is told of what is tried, if anything is.
fn tried_name(session: &Session) -> Option<ShownNode>
    ensures { result ≡ outcomes.tried_name session.now.stage }
{
    match session.stage() {
        Stage::Trying(far) => Some(far.name),
        Stage::AtPrompt | Stage::With(_) => None,
    }
}

/// A circuit has ended. One that was tried has failed; of one that stood the user is told once its last text was given.
#[tactic(auto, unfolding(crate::specs::Outcomes::circuit_ended))]
fn circuit_ended(
    failed: bool,
    session: &mut Session,
    sides: &Sides,
    turn: Turn,
) -> Result<(), NoMemory>
    ensures { OnOk result
        (AtGoes (outcomes.circuit_ended failed turn.moment) sides.now session.old sides.now session.new) }
{
    match tried_name(session) {
        Some(name) => back(&Told::Failure(name), session, sides, turn),
        None => {
            session.note_ended(failed);
            Ok(())
        }
    }
}

/// What was tried stands.
#[tactic(auto, unfolding(crate::specs::Outcomes::connected))]
fn connected(session: &mut Session, sides: &Sides, turn: Turn) -> Result<(), NoMemory>
    ensures { OnOk result (AtGoes outcomes.connected sides.now session.old sides.now session.new) }
{
    match stand(session) {
        Some(name) => {
            tell(session, sides, &Told::Connected(name), turn.alloc)?;
            Ok(())
        }
        None => Ok(()),
    }
}

/// What is tried stands from now on. How the user is told of it, if anything is tried.
fn stand(session: &mut Session) -> Option<ShownNode>
    ensures name { result ≡ outcomes.tried_name session.old.stage }
    ensures session { session.new ≡ outcomes.stood session.old }
{
    match session.take_stage() {
        Stage::Trying(far) => {
            let name = far.name;
            session.set_stage(Stage::With(far));
            Some(name)
        }
        Stage::With(far) => {
            session.set_stage(Stage::With(far));
            None
        }
        Stage::AtPrompt => None,
    }
}

/// What was tried was refused.
#[tactic(auto, unfolding(crate::specs::Outcomes::refused))]
fn refused(session: &mut Session, sides: &Sides, turn: Turn) -> Result<(), NoMemory>
    ensures { OnOk result (AtGoes (outcomes.refused turn.moment) sides.now session.old sides.now session.new) }
{
    match far_name(session) {
        Some(name) => back(&Told::Busy(name), session, sides, turn),
        None => Ok(()),
    }
}

/// How the user is told of the far side, where there is one.
fn far_name(session: &Session) -> Option<ShownNode>
    ensures { result ≡ outcomes.far_name session.now.stage }
{
    match session.far() {
        Some(far) => Some(far.name),
        None => None,
    }
}

/// Something has become of the link with a peer, which is its far side.
pub(crate) fn hear_link(
    notice: LinkNotice,
    member: usize,
    peer: &Call,
    session: &mut Session,
    sides: &mut Sides,
    turn: Turn,
) -> Result<(), NoMemory>
    ensures { OnOk result
        (AtGoes (outcomes.hear_link notice member peer.now turn.moment) sides.old session.old sides.new session.new) }
{
    match notice {
        LinkNotice::Opened => connected(session, sides, turn),
        LinkNotice::Refused => link_refused(session, sides, turn),
        LinkNotice::Closed => link_ended(false, session, sides, turn),
        LinkNotice::Failed => link_ended(true, session, sides, turn),
        LinkNotice::Reset => link_reset(member, peer, session, sides, turn),
    }
}

/// It was set up again by the peer: the one that stood has failed.
#[tactic(auto, unfolding(crate::specs::Outcomes::link_reset))]
fn link_reset(
    member: usize,
    peer: &Call,
    session: &mut Session,
    sides: &mut Sides,
    turn: Turn,
) -> Result<(), NoMemory>
    ensures { OnOk result
        (AtGoes (outcomes.link_reset member peer.now turn.moment) sides.old session.old sides.new session.new) }
{
    link_ended(true, session, sides, turn)?;
    close_unless_called(member, peer, sides, turn.moment)?;
    Ok(())
}

/// Its link was refused: one that was tried, or one that stood.
#[tactic(auto, unfolding(crate::specs::Outcomes::link_refused))]
fn link_refused(session: &mut Session, sides: &mut Sides, turn: Turn) -> Result<(), NoMemory>
    ensures { OnOk result (AtGoes (outcomes.link_refused turn.moment) sides.old session.old sides.new session.new) }
{
    match tried_name(session) {
        Some(_) => refused(session, sides, turn),
        None => link_ended(true, session, sides, turn),
    }
}

/// Its link has ended: one that was tried, or one that stood.
#[tactic(auto, unfolding(crate::specs::Outcomes::link_ended))]
fn link_ended(
    failed: bool,
    session: &mut Session,
    sides: &mut Sides,
    turn: Turn,
) -> Result<(), NoMemory>
    ensures { OnOk result
        (AtGoes (outcomes.link_ended failed turn.moment) sides.old session.old sides.new session.new) }
{
    session.note_lost(failed);
    far_ended(session, sides, turn)?;
    Ok(())
}

/// The far side has ended, and its last text was given: the user is told how. Where it failed, what he has typed is let fall.
#[tactic(auto, unfolding(crate::specs::Outcomes::far_ended))]
pub(crate) fn far_ended(
    session: &mut Session,
    sides: &mut Sides,
    turn: Turn,
) -> Result<(), NoMemory>
    ensures { OnOk result (AtGoes (outcomes.far_ended turn.moment) sides.old session.old sides.new session.new) }
{
    match far_end(session) {
        Some(end) => {
            back(&end.told, session, sides, turn)?;
            forget_if(end.forgets, session, sides, turn.moment)?;
            Ok(())
        }
        None => Ok(()),
    }
}

/// What follows the end of a far side.
#[derive(Clone, Copy, Debug)]
pub(crate) struct Ending {
    pub(crate) told: Told<'static>,
    /// What the user has typed and wasn't taken yet is let fall.
    pub(crate) forgets: bool,
}

fn far_end(session: &Session) -> Option<Ending>
    ensures { result ≡ outcomes.far_end session.now.stage }
{
    match session.stage() {
        Stage::AtPrompt => None,
        Stage::Trying(far) => Some(Ending {
            told: Told::Failure(far.name),
            forgets: false,
        }),
        Stage::With(far) => Some(Ending {
            told: how_ended(far),
            forgets: far.failed,
        }),
    }
}

/// How a far side has ended that stood.
fn how_ended(far: &Far) -> Told<'static>
    ensures { result ≡ outcomes.how_ended far.now }
{
    if far.failed {
        Told::LinkFailed(far.name)
    } else {
        Told::Disconnected(far.name)
    }
}

fn forget_if(
    forgets: bool,
    session: &mut Session,
    sides: &mut Sides,
    now: Moment,
) -> Result<(), NoMemory>
    ensures { OnOk result (AtGoes (outcomes.forget_if forgets now) sides.old session.old sides.new session.new) }
{
    if forgets {
        forget_texts(session, sides, now)?;
        Ok(())
    } else {
        Ok(())
    }
}

/// A link is closed that the peer hasn't set up.
#[tactic(auto, unfolding(crate::specs::Outcomes::close_unless_called))]
fn close_unless_called(
    member: usize,
    peer: &Call,
    sides: &mut Sides,
    now: Moment,
) -> Result<(), NoMemory>
    ensures { OnOk result (SidesGo (outcomes.close_unless_called member peer.now now) sides.old sides.new) }
{
    if sides.is_called(member, peer) {
        Ok(())
    } else {
        sides.act(member, &UserAct::CloseLink(*peer), now)?;
        Ok(())
    }
}
