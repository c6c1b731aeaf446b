//! The texts of a user. Called by `things`, `trying`, `outcomes` and `asking`.
ghost use Rattle.std.specs.Prelude.{◌≡◌, ◌≤◌, ◌-◌, length, IfOk, OnOk};
ghost use Rattle.station_places.specs.Sides.{SidesState, SidesStand};
ghost use Rattle.text_lines.specs.UserLines.{behind_line};
ghost use Rattle.station_users.specs.Standing.{AtGoes};
ghost use Rattle.station_users.specs.Steps.{session_at};
ghost use Rattle.station_users.specs.Texts as texts;

use crate::turn::Turn;
use radio_base::{Moment, NoMemory};
use station_places::Sides;
use station_prompt::next_line;
use station_sessions::{Presence, Session};

/// There is a text of the user: what is left of the last one, or else the next one, which is taken.
#[tactic(auto, unfolding(crate::specs::Texts::need_text))]
pub(crate) fn need_text(
    session: &mut Session,
    sides: &mut Sides,
    turn: Turn,
) -> Result<(), NoMemory>
    ensures { OnOk result (AtGoes (texts.need_text turn.moment) sides.old session.old sides.new session.new) }
{
    if session.has_rest() {
        return Ok(());
    }
    next_text(session, sides, turn)?;
    Ok(())
}

/// His next text begins, where there is one: what was typed comes first.
fn next_text(session: &mut Session, sides: &mut Sides, turn: Turn) -> Result<(), NoMemory>
    ensures { OnOk result (AtGoes (texts.next_text turn.moment) sides.old session.old sides.new session.new) }
{
    match session.next_typed() {
        Some(text) => {
            session.begin(text.bytes().to_vec(turn.alloc)?, turn.moment);
            Ok(())
        }
        None => {
            take_text(session, sides, turn.moment)?;
            Ok(())
        }
    }
}

/// The first text that came over his circuit or link begins, where one waits.
#[tactic(auto, unfolding(crate::specs::Texts::take_text))]
fn take_text(session: &mut Session, sides: &mut Sides, now: Moment) -> Result<(), NoMemory>
    ensures { OnOk result (AtGoes (texts.take_text now) sides.old session.old sides.new session.new) }
{
    match sides.take_from(&session.place(), now)? {
        Some(text) => {
            session.begin(text.into_vec(), now);
            Ok(())
        }
        None => Ok(()),
    }
}

/// The first line of what is left of his text is done with.
pub(crate) fn cut_line(session: &mut Session)
    ensures { session.new ≡ texts.cut_line session.old }
{
    let size = line_size(session.rest());
    session.cut(size);
}

/// How many bytes the first line of a text has, with what ends it.
#[tactic(auto, using(crate::proofs::Lines::behind_short))]
fn line_size(text: &[u8]) -> usize
    ensures size { result ≡ length text.now - length (behind_line text.now) }
    ensures within { result ≤ length text.now }
{
    text.len() - next_line(text).1.len()
}

/// Takes his next line.
pub(crate) fn take_line(
    session: &mut Session,
    sides: &mut Sides,
    turn: Turn,
) -> Result<Vec<u8>, NoMemory>
    ensures line { IfOk result (λ line. (s : SidesState) → SidesStand sides.old s
        → line.items ≡ texts.next_line turn.moment (session_at s session.old)) }
    ensures goes { OnOk result (AtGoes (texts.take_line turn.moment) sides.old session.old sides.new session.new) }
{
    need_text(session, sides, turn)?;
    let line = next_line(session.rest()).0.to_vec(turn.alloc)?;
    cut_line(session);
    Ok(line)
}

/// Lets his next text fall.
pub(crate) fn drop_text(
    session: &mut Session,
    sides: &mut Sides,
    turn: Turn,
) -> Result<(), NoMemory>
    ensures { OnOk result (AtGoes (texts.drop_text turn.moment) sides.old session.old sides.new session.new) }
{
    need_text(session, sides, turn)?;
    session.drop_rest();
    Ok(())
}

/// Lets fall all that came from him and wasn't taken yet, and what is left of his last text.
#[tactic(auto, unfolding(crate::specs::Texts::forget_texts))]
pub(crate) fn forget_texts(
    session: &mut Session,
    sides: &mut Sides,
    now: Moment,
) -> Result<(), NoMemory>
    ensures { OnOk result (AtGoes (texts.forget_texts now) sides.old session.old sides.new session.new) }
{
    session.forget_typed();
    if session.presence() == Presence::Gone {
        return Ok(());
    }
    sides.drop_texts(&session.place(), now)?;
    Ok(())
}
