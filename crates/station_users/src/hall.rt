//! The sessions of a station, and all at which they act. Used by all that serve them.
ghost use Rattle.std.specs.Prelude.{◌≡◌, position, OnOk};
ghost use Rattle.std.specs.List.{list_any};
ghost use Rattle.station_lists.specs.Telling.{told_text};
ghost use Rattle.station_members.specs.Standing.{MembersStand};
ghost use Rattle.station_members.specs.States.{State};
ghost use Rattle.station_sessions.specs.Sessions as sessions;
ghost use Rattle.station_users.specs.Standing.{HallGoes, HallStands};
ghost use Rattle.station_users.specs.States as states;
ghost use Rattle.station_users.specs.States.{UsersState};
ghost use Rattle.station_users.specs.Telling as telling;

use crate::telling::{answer, say};
use crate::turn::Turn;
use radio_base::{Moment, NoMemory};
use station_lists::Told;
use station_looks::About;
use station_members::Members;
use station_places::{ConsoleOuts, Sides};
use station_sessions::{Place, Session};
use std::alloc::Global;

/// The sessions of a station, and all at which they act.
#[derive(Drop)]
pub(crate) struct Hall {
    pub(crate) alloc: Global,
    pub(crate) about: About,
    pub(crate) sides: Sides,
    /// In the order of their making.
    pub(crate) sessions: Vec<Session>,
    /// The station goes down: who comes is told so, and let go.
    pub(crate) is_stopping: bool,
    /// The moment of the first tick.
    pub(crate) started: Option<Moment>,
}

impl Hall {
    /// Without sessions.
    pub(crate) fn new(alloc: Global, about: About, members: Members) -> Hall
        ensures { (s : State) → MembersStand members s → HallStands result (states.new_state about s) }
    {
        Hall {
            alloc,
            about,
            sides: Sides {
                members,
                outs: ConsoleOuts::new(alloc),
            },
            sessions: Vec::new(alloc),
            is_stopping: false,
            started: None,
        }
    }

    /// What a thing needs that is done now.
    pub(crate) fn turn(&self, now: Moment) -> Turn
        ensures { result.moment ≡ now }
    {
        Turn {
            alloc: self.alloc,
            moment: now,
        }
    }

    /// Whether a session has this place: its user is there, or its far side.
    pub(crate) fn is_taken(&self, place: &Place) -> bool
        ensures { (u : UsersState) → HallStands self.now u → result ≡ states.is_taken place.now u }
    {
        one_has(&self.sessions, place)
    }

    /// The first session whose user is at a place.
    pub(crate) fn user_at(&self, place: &Place) -> Option<usize>
        ensures { (u : UsersState) → HallStands self.now u → result ≡ states.user_at place.now u }
    {
        first_user_at(&self.sessions, place)
    }

    /// The first session whose far side is at a place.
    pub(crate) fn far_at(&self, place: &Place) -> Option<usize>
        ensures { (u : UsersState) → HallStands self.now u → result ≡ states.far_at place.now u }
    {
        first_far_at(&self.sessions, place)
    }

    /// The user of the session in a place is told this in answer to his line.
    pub(crate) fn answer(&mut self, told: &Told<'_>, nth: usize, turn: Turn) -> Result<(), NoMemory>
        ensures { OnOk result
            (HallGoes (states.at_nth nth (telling.answer (told_text told.now) turn.moment)) self.old self.new) }
    {
        if nth < self.sessions.len() {
            answer(&mut self.sessions[nth], &mut self.sides, told, turn)?;
            Ok(())
        } else {
            Ok(())
        }
    }

    /// He is given this text.
    pub(crate) fn say(&mut self, text: &[u8], nth: usize, turn: Turn) -> Result<(), NoMemory>
        ensures { OnOk result (HallGoes (states.at_nth nth (telling.say text.now turn.moment)) self.old self.new) }
    {
        if nth < self.sessions.len() {
            say(&mut self.sessions[nth], &mut self.sides, text, turn)?;
            Ok(())
        } else {
            Ok(())
        }
    }
}

/// Whether one of these sessions has this place.
fn one_has(all: &[Session], place: &Place) -> bool
    ensures { result ≡ list_any (states.has_place place.now) all.now }
{
    all.iter().any(|session| has_place(session, place))
}

fn has_place(session: &Session, place: &Place) -> bool
    ensures { result ≡ states.has_place place.now session.now }
{
    session.is_at(place) || session.is_far_at(place)
}

/// The first of them whose user is at a place.
fn first_user_at(all: &[Session], place: &Place) -> Option<usize>
    ensures { result ≡ position (sessions.is_at place.now) all.now }
{
    all.iter().position(|session| session.is_at(place))
}

/// The first of them whose far side is at a place.
fn first_far_at(all: &[Session], place: &Place) -> Option<usize>
    ensures { result ≡ position (states.has_far_at place.now) all.now }
{
    all.iter().position(|session| session.is_far_at(place))
}
