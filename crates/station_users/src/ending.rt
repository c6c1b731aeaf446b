//! Users who are let go: all of them, and those from whom nothing came for too long. Called by `users`.
ghost use Rattle.std.specs.Prelude.{◌≡◌, OnOk};
ghost use Rattle.station_users.specs.Ending as ending;
ghost use Rattle.station_users.specs.Standing.{AtGoes, HallGoes, moment_in};
ghost use Rattle.station_users.specs.States.{at_nth, each_session};

use crate::hall::Hall;
use crate::telling::tell;
use crate::things::close_far;
use crate::turn::Turn;
use radio_base::{Moment, NoMemory};
use station_lists::Told;
use station_places::Sides;
use station_sessions::{Presence, Session, Stage};
use std::alloc::Global;

impl Hall {
    /// Time has passed: users at the prompt from whom nothing came for too long are let go.
    #[tactic(auto, unfolding(crate::specs::Ending::tick))]
    pub(crate) fn tick(&mut self, turn: Turn) -> Result<(), NoMemory>
        ensures { OnOk result (HallGoes (ending.tick turn.moment) self.old self.new) }
    {
        self.start(turn.moment);
        self.end_idle(turn)?;
        Ok(())
    }

    /// Notes the moment of the first tick.
    fn start(&mut self, now: Moment)
        ensures { HallGoes (ending.started now) self.old self.new }
    {
        self.started = first_moment(self.started, now);
    }

    fn end_idle(&mut self, turn: Turn) -> Result<(), NoMemory>
        ensures { OnOk result (HallGoes (ending.end_idle turn.moment) self.old self.new) }
    {
        for nth in 0..self.sessions.len() {
            self.end_idle_nth(nth, turn)?;
        }
        Ok(())
    }

    fn end_idle_nth(&mut self, nth: usize, turn: Turn) -> Result<(), NoMemory>
        ensures { OnOk result (HallGoes (ending.end_idle_nth turn.moment nth) self.old self.new) }
    {
        let limit = self.about.idle;
        if nth < self.sessions.len() {
            end_idle(limit, &mut self.sessions[nth], &self.sides, turn)?;
            Ok(())
        } else {
            Ok(())
        }
    }

    /// The station goes down: all users are told so and let go, and all far sides are closed.
    #[tactic(auto, unfolding(crate::specs::Ending::stop))]
    pub(crate) fn stop(&mut self, turn: Turn) -> Result<(), NoMemory>
        ensures { OnOk result (HallGoes (ending.stop turn.moment) self.old self.new) }
    {
        self.is_stopping = true;
        self.stop_each(turn)?;
        Ok(())
    }

    fn stop_each(&mut self, turn: Turn) -> Result<(), NoMemory>
        ensures { OnOk result (HallGoes (each_session (ending.stop_session turn.moment)) self.old self.new) }
    {
        for nth in 0..self.sessions.len() {
            self.stop_nth(nth, turn)?;
        }
        Ok(())
    }

    fn stop_nth(&mut self, nth: usize, turn: Turn) -> Result<(), NoMemory>
        ensures { OnOk result (HallGoes (at_nth nth (ending.stop_session turn.moment)) self.old self.new) }
    {
        if nth < self.sessions.len() {
            stop_session(&mut self.sessions[nth], &mut self.sides, turn)?;
            Ok(())
        } else {
            Ok(())
        }
    }
}

/// The moment of the first tick, where this is a tick's.
fn first_moment(started: Option<Moment>, now: Moment) -> Option<Moment>
    ensures { moment_in result ≡ ending.first_moment (moment_in started) now }
{
    match started {
        Some(started) => Some(started),
        None => Some(now),
    }
}

/// A user from whom nothing came for too long is let go.
#[tactic(auto, unfolding(crate::specs::Ending::idle_where))]
fn end_idle(limit: u64, session: &mut Session, sides: &Sides, turn: Turn) -> Result<(), NoMemory>
    ensures { OnOk result
        (AtGoes (ending.idle_where limit turn.moment) sides.now session.old sides.now session.new) }
{
    if is_idle(session, limit, turn.moment) {
        tell(session, sides, &Told::Idle, turn.alloc)?;
        session.set_presence(Presence::Leaving);
        Ok(())
    } else {
        Ok(())
    }
}

/// Whether nothing has come from a user at the prompt for so many milliseconds, where there is such a limit.
fn is_idle(session: &Session, limit: u64, now: Moment) -> bool
    ensures { result ≡ ending.is_idle limit now session.now }
{
    limit != 0
        && session.presence() == Presence::Here
        && is_at_prompt(session.stage())
        && now.0.saturating_sub(session.since().0) >= limit
}

fn is_at_prompt(stage: &Stage) -> bool
    ensures { result ≡ ending.is_at_prompt stage.now }
{
    match stage {
        Stage::AtPrompt => true,
        Stage::Trying(_) | Stage::With(_) => false,
    }
}

/// The far side of a session is closed, and its user is let go.
#[tactic(auto, unfolding(crate::specs::Ending::stop_session))]
fn stop_session(session: &mut Session, sides: &mut Sides, turn: Turn) -> Result<(), NoMemory>
    ensures { OnOk result (AtGoes (ending.stop_session turn.moment) sides.old session.old sides.new session.new) }
{
    close_far(session, sides, turn.moment)?;
    session.set_stage(Stage::AtPrompt);
    say_down(session, sides, turn.alloc)?;
    Ok(())
}

/// A user is told that the station goes down, where he wasn't told the last.
fn say_down(session: &mut Session, sides: &Sides, alloc: Global) -> Result<(), NoMemory>
    ensures { OnOk result (AtGoes ending.told_down sides.now session.old sides.now session.new) }
{
    if session.presence() == Presence::Here {
        tell(session, sides, &Told::GoingDown, alloc)?;
        session.set_presence(Presence::Leaving);
        Ok(())
    } else {
        Ok(())
    }
}
