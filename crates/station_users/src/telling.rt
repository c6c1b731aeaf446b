//! What users are told. Called by all that serve sessions.
ghost use Rattle.std.specs.Prelude.{◌≡◌, IfOk, OnOk};
ghost use Rattle.station_lists.specs.Telling.{told_text};
ghost use Rattle.station_places.specs.Sides.{SidesState, SidesStand};
ghost use Rattle.station_users.specs.Standing.{AtGoes};
ghost use Rattle.station_users.specs.Steps.{session_at};
ghost use Rattle.station_users.specs.Telling as telling;

use crate::turn::Turn;
use radio_base::{NoMemory, TextOut};
use station_lists::{Told, add_told};
use station_looks::begun;
use station_places::Sides;
use station_sessions::Session;
use std::alloc::Global;

/// Whether nothing is said to the user any more.
fn is_deaf(session: &Session, sides: &Sides) -> bool
    ensures { (s : SidesState) → SidesStand sides.now s → result ≡ telling.is_deaf (session_at s session.now) }
{
    session.is_deaf(sides.has_ended(&session.place()))
}

/// Gives the user a text, unless nothing is said to him any more.
#[tactic(auto, unfolding(crate::specs::Telling::say))]
pub(crate) fn say(
    session: &mut Session,
    sides: &mut Sides,
    text: &[u8],
    turn: Turn,
) -> Result<(), NoMemory>
    ensures { OnOk result (AtGoes (telling.say text.now turn.moment) sides.old session.old sides.new session.new) }
{
    if is_deaf(session, sides) {
        return Ok(());
    }
    give_user(session, sides, text, turn)?;
    Ok(())
}

/// Gives the user's side a text: what of it has no room there waits.
fn give_user(
    session: &mut Session,
    sides: &mut Sides,
    text: &[u8],
    turn: Turn,
) -> Result<(), NoMemory>
    ensures { OnOk result (AtGoes (telling.give_user text.now turn.moment) sides.old session.old sides.new session.new) }
{
    let sent = sides.give(&session.place(), text, turn.moment)?;
    session.wait_with(&text[sent..])?;
    Ok(())
}

/// A line, as a reply at the prompt where the user is.
fn reply_of(
    session: &Session,
    sides: &Sides,
    told: &Told<'_>,
    alloc: Global,
) -> Result<TextOut, NoMemory>
    ensures { IfOk result (λ text. (s : SidesState) → SidesStand sides.now s
        → text ≡ telling.reply (told_text told.now) (session_at s session.now)) }
{
    let mut text = begun(alloc, &sides.members, session.member())?;
    add_told(told, &mut text)?;
    Ok(text)
}

/// The user is told this in answer to his line.
#[tactic(auto, unfolding(crate::specs::Telling::answer))]
pub(crate) fn answer(
    session: &mut Session,
    sides: &mut Sides,
    told: &Told<'_>,
    turn: Turn,
) -> Result<(), NoMemory>
    ensures { OnOk result
        (AtGoes (telling.answer (told_text told.now) turn.moment) sides.old session.old sides.new session.new) }
{
    let text = reply_of(session, sides, told, turn.alloc)?;
    say(session, sides, text.bytes(), turn)?;
    Ok(())
}

/// The user is told this as soon as there is room.
#[tactic(auto, unfolding(crate::specs::Telling::tell))]
pub(crate) fn tell(
    session: &mut Session,
    sides: &Sides,
    told: &Told<'_>,
    alloc: Global,
) -> Result<(), NoMemory>
    ensures { OnOk result (AtGoes (telling.tell (told_text told.now)) sides.now session.old sides.now session.new) }
{
    let text = reply_of(session, sides, told, alloc)?;
    session.tell(text)?;
    Ok(())
}
