//! The turns of sessions. Called by `users`.
ghost use Rattle.std.specs.Prelude.{◌≡◌, is_some, IfOk, OnOk};
ghost use Rattle.station_places.specs.Sides.{SidesState, SidesStand};
ghost use Rattle.station_users.specs.Serving as serving;
ghost use Rattle.station_users.specs.Standing.{AtGoes, HallGoes, HallStands};
ghost use Rattle.station_users.specs.States.{UsersState, at_nth, each_session};
ghost use Rattle.station_users.specs.Steps.{session_at};
ghost use Rattle.station_users.specs.Things as things;

use crate::hall::Hall;
use crate::sights::{far_has_text, far_place, sight_of};
use crate::things::do_thing;
use crate::trying::prepare;
use crate::turn::Turn;
use radio_base::NoMemory;
use station_places::Sides;
use station_sessions::{Presence, Session, Thing};
use std::alloc::Global;

impl Hall {
    /// Each session does at most one thing, in the order of their making; then those that are over leave. Whether any did one.
    #[tactic(auto, unfolding(crate::specs::Serving::serve))]
    pub(crate) fn serve(&mut self, turn: Turn) -> Result<bool, NoMemory>
        ensures goes { OnOk result (HallGoes (serving.serve turn.moment) self.old self.new) }
        ensures served { IfOk result (λ served. (u : UsersState) → HallStands self.old u
            → served ≡ serving.serves turn.moment u) }
    {
        let served = self.serve_each(turn)?;
        self.drop_over();
        Ok(served)
    }

    fn serve_each(&mut self, turn: Turn) -> Result<bool, NoMemory>
        ensures goes { OnOk result (HallGoes (serving.serve_each turn.moment) self.old self.new) }
        ensures served { IfOk result (λ served. (u : UsersState) → HallStands self.old u
            → served ≡ serving.serves turn.moment u) }
    {
        let mut served = false;
        for nth in 0..self.sessions.len() {
            served |= self.serve_nth(nth, turn)?;
        }
        Ok(served)
    }

    /// The session in a place does its next thing. Whether there was one.
    #[tactic(auto, unfolding(crate::specs::Serving::serve_nth, crate::specs::Serving::serves_nth))]
    fn serve_nth(&mut self, nth: usize, turn: Turn) -> Result<bool, NoMemory>
        ensures goes { OnOk result (HallGoes (serving.serve_nth turn.moment nth) self.old self.new) }
        ensures served { IfOk result (λ served. (u : UsersState) → HallStands self.old u
            → served ≡ serving.serves_nth turn.moment nth u) }
    {
        self.prepare(nth, turn)?;
        let next = self.next_of(nth, turn.alloc)?;
        let served = self.do_next(next, nth, turn)?;
        Ok(served)
    }

    /// Does this thing, if there is one. Whether there was.
    fn do_next(&mut self, next: Option<Thing>, nth: usize, turn: Turn) -> Result<bool, NoMemory>
        ensures goes { OnOk result (HallGoes (serving.do_next next nth turn.moment) self.old self.new) }
        ensures served { IfOk result (λ served. served ≡ is_some next) }
    {
        match next {
            Some(thing) => {
                self.do_thing(thing, nth, turn)?;
                Ok(true)
            }
            None => Ok(false),
        }
    }

    fn prepare(&mut self, nth: usize, turn: Turn) -> Result<(), NoMemory>
        ensures { OnOk result (HallGoes (serving.prepared nth turn.moment) self.old self.new) }
    {
        if nth < self.sessions.len() {
            prepare(&mut self.sessions[nth], &mut self.sides, turn)?;
            Ok(())
        } else {
            Ok(())
        }
    }

    /// What it does next, if anything, by what it sees.
    fn next_of(&self, nth: usize, alloc: Global) -> Result<Option<Thing>, NoMemory>
        ensures { IfOk result (λ thing. (u : UsersState) → HallStands self.now u → thing ≡ serving.next_of nth u) }
    {
        match self.sessions.get(nth) {
            Some(session) => Ok(next_thing(session, &self.sides, alloc)?),
            None => Ok(None),
        }
    }

    fn do_thing(&mut self, thing: Thing, nth: usize, turn: Turn) -> Result<(), NoMemory>
        ensures { OnOk result (HallGoes (serving.do_thing_of nth thing turn.moment) self.old self.new) }
    {
        if is_line(thing) {
            self.do_line(nth, turn)?;
            Ok(())
        } else {
            self.do_other(thing, nth, turn)?;
            Ok(())
        }
    }

    fn do_other(&mut self, thing: Thing, nth: usize, turn: Turn) -> Result<(), NoMemory>
        ensures { OnOk result (HallGoes (at_nth nth (things.do_thing thing turn.moment)) self.old self.new) }
    {
        if nth < self.sessions.len() {
            do_thing(thing, &mut self.sessions[nth], &mut self.sides, turn)?;
            Ok(())
        } else {
            Ok(())
        }
    }

    /// Sessions leave whose user's side has ended, and that have nothing left to do.
    #[tactic(auto, unfolding(crate::specs::Serving::drop_over))]
    fn drop_over(&mut self)
        ensures { HallGoes serving.drop_over self.old self.new }
    {
        self.note_gone();
        self.sessions.retain(|session| !session.is_over());
    }

    /// The end of a user that is held no longer is one that he has left.
    fn note_gone(&mut self)
        ensures { HallGoes (each_session serving.gone_where) self.old self.new }
    {
        for nth in 0..self.sessions.len() {
            self.note_gone_nth(nth);
        }
    }

    fn note_gone_nth(&mut self, nth: usize)
        ensures { HallGoes (at_nth nth serving.gone_where) self.old self.new }
    {
        if nth < self.sessions.len() {
            note_gone(&mut self.sessions[nth], &self.sides);
        }
    }

    /// Before the next input comes: each session notes whether something waits at its far side.
    pub(crate) fn settled(&mut self)
        ensures { HallGoes serving.settled self.old self.new }
    {
        for nth in 0..self.sessions.len() {
            self.note_waits_nth(nth);
        }
    }

    fn note_waits_nth(&mut self, nth: usize)
        ensures { HallGoes (at_nth nth serving.notes_waits) self.old self.new }
    {
        if nth < self.sessions.len() {
            note_waits(&mut self.sessions[nth], &self.sides);
        }
    }
}

fn is_line(thing: Thing) -> bool
    ensures { result ≡ serving.is_line thing }
{
    matches!(thing, Thing::DoLine)
}

fn next_thing(session: &Session, sides: &Sides, alloc: Global) -> Result<Option<Thing>, NoMemory>
    ensures { IfOk result (λ thing. (s : SidesState) → SidesStand sides.now s
        → thing ≡ serving.next_at (session_at s session.now)) }
{
    let sight = sight_of(session, sides, alloc)?;
    Ok(session.next_thing(&sight))
}

fn note_gone(session: &mut Session, sides: &Sides)
    ensures { AtGoes serving.gone_where sides.now session.old sides.now session.new }
{
    if sides.is_gone(&session.place()) {
        session.set_presence(Presence::Gone);
    }
}

fn note_waits(session: &mut Session, sides: &Sides)
    ensures { AtGoes serving.notes_waits sides.now session.old sides.now session.new }
{
    let waits = far_has_text(far_place(session), sides);
    session.note_waits(waits);
}
