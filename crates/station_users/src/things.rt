//! The things that a session does, but for lines at the prompt. Called by `serving`.
ghost use Rattle.std.specs.Prelude.{◌≡◌, OnOk};
ghost use Rattle.station_places.specs.Sides.{SidesGo};
ghost use Rattle.station_users.specs.Standing.{AtGoes};
ghost use Rattle.station_users.specs.Things as things;

use crate::sights::far_place;
use crate::telling::{answer, say};
use crate::texts::{cut_line, drop_text, need_text};
use crate::turn::Turn;
use node_core::TakenMessage;
use radio_base::{Moment, NoMemory};
use station_lists::Told;
use station_places::Sides;
use station_sessions::{Place, Presence, Session, Thing};

/// Does a thing, which is none but that of a line.
pub(crate) fn do_thing(
    thing: Thing,
    session: &mut Session,
    sides: &mut Sides,
    turn: Turn,
) -> Result<(), NoMemory>
    ensures { OnOk result (AtGoes (things.do_thing thing turn.moment) sides.old session.old sides.new session.new) }
{
    match thing {
        Thing::GoOn => go_on(session, sides, turn.moment),
        Thing::GoOnFar => go_on_far(session, sides, turn.moment),
        Thing::GiveReply => give_reply(session, sides, turn),
        Thing::LetGo => let_go(session, sides, turn.moment),
        Thing::GiveText => give_text(session, sides, turn),
        Thing::DropText => drop_text(session, sides, turn),
        Thing::PassOn => pass_on(session, sides, turn),
        Thing::Stop => stop_try(session, sides, turn),
        Thing::CloseFar => close_far(session, sides, turn.moment),
        Thing::DoLine => Ok(()),
    }
}

// ---- pieces that waited for room

/// So many of those that wait for the user go as have room.
#[tactic(auto, unfolding(crate::specs::Things::go_on))]
fn go_on(session: &mut Session, sides: &mut Sides, now: Moment) -> Result<(), NoMemory>
    ensures { OnOk result (AtGoes (things.go_on now) sides.old session.old sides.new session.new) }
{
    let sent = sides.give(&session.place(), session.unsent().as_slice(), now)?;
    session.went(sent);
    Ok(())
}

/// The same of those that wait for the far side.
#[tactic(auto, unfolding(crate::specs::Things::go_on_far))]
fn go_on_far(session: &mut Session, sides: &mut Sides, now: Moment) -> Result<(), NoMemory>
    ensures { OnOk result (AtGoes (things.go_on_far now) sides.old session.old sides.new session.new) }
{
    let Some(far) = session.far() else {
        return Ok(());
    };
    let sent = sides.give(&far.place, far.unsent.as_slice(), now)?;
    session.far_went(sent);
    Ok(())
}

// ---- what the user is given

/// The user is given this text, if there is one.
fn say_if(
    text: Option<TakenMessage>,
    session: &mut Session,
    sides: &mut Sides,
    turn: Turn,
) -> Result<(), NoMemory>
    ensures { OnOk result (AtGoes (things.say_if text turn.moment) sides.old session.old sides.new session.new) }
{
    match text {
        Some(text) => {
            say(session, sides, text.as_slice(), turn)?;
            Ok(())
        }
        None => Ok(()),
    }
}

/// The user is given the first reply that waits; where nothing is said to him any more it is let fall.
#[tactic(auto, unfolding(crate::specs::Things::give_reply))]
fn give_reply(session: &mut Session, sides: &mut Sides, turn: Turn) -> Result<(), NoMemory>
    ensures { OnOk result (AtGoes (things.give_reply turn.moment) sides.old session.old sides.new session.new) }
{
    match session.next_reply() {
        Some(reply) => {
            say(session, sides, reply.bytes(), turn)?;
            Ok(())
        }
        None => Ok(()),
    }
}

/// The user is given the next text of the far side.
#[tactic(auto, unfolding(crate::specs::Things::give_text))]
fn give_text(session: &mut Session, sides: &mut Sides, turn: Turn) -> Result<(), NoMemory>
    ensures { OnOk result (AtGoes (things.give_text turn.moment) sides.old session.old sides.new session.new) }
{
    match far_place(session) {
        Some(place) => {
            give_text_of(&place, session, sides, turn)?;
            Ok(())
        }
        None => Ok(()),
    }
}

fn give_text_of(
    place: &Place,
    session: &mut Session,
    sides: &mut Sides,
    turn: Turn,
) -> Result<(), NoMemory>
    ensures { OnOk result
        (AtGoes (things.give_text_from place.now turn.moment) sides.old session.old sides.new session.new) }
{
    let text = sides.take_from(place, turn.moment)?;
    say_if(text, session, sides, turn)?;
    Ok(())
}

// ---- what the far side is given

/// Gives the user's next text to the far side, whole.
#[tactic(auto, unfolding(crate::specs::Things::pass_on))]
fn pass_on(session: &mut Session, sides: &mut Sides, turn: Turn) -> Result<(), NoMemory>
    ensures { OnOk result (AtGoes (things.pass_on turn.moment) sides.old session.old sides.new session.new) }
{
    need_text(session, sides, turn)?;
    pass_rest(session, sides, turn)?;
    Ok(())
}

/// Gives what is left of the user's text to the far side.
#[tactic(auto, unfolding(crate::specs::Things::pass_rest))]
fn pass_rest(session: &mut Session, sides: &mut Sides, turn: Turn) -> Result<(), NoMemory>
    ensures { OnOk result (AtGoes (things.pass_rest turn.moment) sides.old session.old sides.new session.new) }
{
    let text = session.rest().to_vec(turn.alloc)?;
    session.drop_rest();
    pass_to(far_place(session), &text, session, sides, turn.moment)?;
    Ok(())
}

/// Gives the far side, where it is, a text: what of it has no room there waits.
fn pass_to(
    far: Option<Place>,
    text: &[u8],
    session: &mut Session,
    sides: &mut Sides,
    now: Moment,
) -> Result<(), NoMemory>
    ensures { OnOk result (AtGoes (things.pass_to far text.now now) sides.old session.old sides.new session.new) }
{
    match far {
        Some(place) => {
            let sent = sides.give(&place, text, now)?;
            session.far_waits_with(&text[sent..])?;
            Ok(())
        }
        None => Ok(()),
    }
}

// ---- ends

/// Closes the user's side, to which nothing is said any more.
#[tactic(auto, unfolding(crate::specs::Things::let_go))]
pub(crate) fn let_go(session: &mut Session, sides: &mut Sides, now: Moment) -> Result<(), NoMemory>
    ensures { OnOk result (AtGoes (things.let_go now) sides.old session.old sides.new session.new) }
{
    let place = session.place();
    sides.close_at(&place, now)?;
    session.forget_typed();
    session.set_presence(presence_after(&place));
    Ok(())
}

/// How a user stands whose side was closed from here: a console has ended at once.
fn presence_after(place: &Place) -> Presence
    ensures { result ≡ things.presence_after place.now }
{
    match place {
        Place::Console(_) => Presence::Gone,
        Place::End { .. } | Place::Link { .. } => Presence::LetGo,
    }
}

/// Closes the far side.
#[tactic(auto, unfolding(crate::specs::Things::close_far))]
pub(crate) fn close_far(
    session: &mut Session,
    sides: &mut Sides,
    now: Moment,
) -> Result<(), NoMemory>
    ensures { OnOk result (AtGoes (things.close_far now) sides.old session.old sides.new session.new) }
{
    close_where(far_place(session), sides, now)?;
    session.note_closed();
    Ok(())
}

fn close_where(far: Option<Place>, sides: &mut Sides, now: Moment) -> Result<(), NoMemory>
    ensures { OnOk result (SidesGo (things.close_where far now) sides.old sides.new) }
{
    match far {
        Some(place) => {
            sides.close_at(&place, now)?;
            Ok(())
        }
        None => Ok(()),
    }
}

/// The user has ended the try.
#[tactic(auto, unfolding(crate::specs::Things::stop_try))]
fn stop_try(session: &mut Session, sides: &mut Sides, turn: Turn) -> Result<(), NoMemory>
    ensures { OnOk result (AtGoes (things.stop_try turn.moment) sides.old session.old sides.new session.new) }
{
    cut_line(session);
    close_far(session, sides, turn.moment)?;
    session.come_back(turn.moment);
    answer(session, sides, &Told::Stopped, turn)?;
    Ok(())
}

/// Says the last to a user, and closes his side.
#[tactic(auto, unfolding(crate::specs::Things::say_bye))]
pub(crate) fn say_bye(session: &mut Session, sides: &mut Sides, turn: Turn) -> Result<(), NoMemory>
    ensures { OnOk result (AtGoes (things.say_bye turn.moment) sides.old session.old sides.new session.new) }
{
    answer(session, sides, &Told::Bye, turn)?;
    session.set_presence(Presence::Leaving);
    session.drop_rest();
    leave(session, sides, turn.moment)?;
    Ok(())
}

/// The user is let go, once what he is told has gone.
fn leave(session: &mut Session, sides: &mut Sides, now: Moment) -> Result<(), NoMemory>
    ensures { OnOk result (AtGoes (things.leave now) sides.old session.old sides.new session.new) }
{
    if session.unsent().is_empty() {
        let_go(session, sides, now)?;
        Ok(())
    } else {
        Ok(())
    }
}
