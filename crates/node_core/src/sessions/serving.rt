//! The sessions are served in the order of their making, each with at most one thing. Called by `settling`.
ghost use Rattle.std.specs.Prelude.{◌≡◌, IfOk, OnOk};
ghost use Rattle.node_model.specs.Serving as serving;
ghost use Rattle.node_core.specs.Going.{SetHoldsTold};
ghost use Rattle.node_model.specs.States.{State};
ghost use Rattle.node_model.specs.Users as users;

use crate::sessions::Session;
use crate::sessions::users::is_gone;
use crate::station::Station;
use circuit_table::CircuitSet;
use link_table::LinkTable;
use node_model::Stage;
use radio_base::{Moment, NoMemory};

impl Station {
    ghost use Rattle.node_core.specs.Going.{HoldsTold, StandsTold, Steps, Turns};

    /// Serves each session, and drops those that are over. Whether any of them was served.
    pub(crate) fn serve_sessions(&mut self, now: Moment) -> Result<bool, NoMemory>
        requires { StandsTold self.old }
        ensures { IfOk result (Turns (serving.serve_sessions now.0) self.old self.new) }
    {
        self.greet_links()?;
        let served = self.serve_each(now)?;
        self.drop_over();
        Ok(served)
    }

    /// Serves each session, in their order.
    fn serve_each(&mut self, now: Moment) -> Result<bool, NoMemory>
        requires { StandsTold self.old }
        ensures { IfOk result (Turns (serving.serve_all now.0) self.old self.new) }
    {
        let mut served = false;
        for nth in 0..self.sessions.len() {
            served |= self.serve(nth, now)?;
        }
        Ok(served)
    }

    /// Serves a session with the first of these things that can be done. Whether any could.
    fn serve(&mut self, nth: usize, now: Moment) -> Result<bool, NoMemory>
        requires { StandsTold self.old }
        ensures { IfOk result (Turns (serving.serve now.0 nth) self.old self.new) }
    {
        let served = self.serve_once(nth, now)?;
        self.pump(now)?;
        Ok(served)
    }

    fn serve_once(&mut self, nth: usize, now: Moment) -> Result<bool, NoMemory>
        requires { StandsTold self.old }
        ensures { IfOk result (Turns (serving.serve_once now.0 nth) self.old self.new) }
    {
        if self.give_reply(nth, now)? {
            return Ok(true);
        }
        if self.give_message(nth, now)? {
            return Ok(true);
        }
        if self.take_up(nth, now)? {
            return Ok(true);
        }
        self.close_circuit(nth, now)
    }

    /// Does what is to be done with the next text or line of a user.
    fn take_up(&mut self, nth: usize, now: Moment) -> Result<bool, NoMemory>
        requires { StandsTold self.old }
        ensures { IfOk result (Turns (serving.take_up now.0 nth) self.old self.new) }
    {
        match self.stage(nth) {
            Some(stage) => self.take_up_at(nth, &stage, now),
            None => Ok(false),
        }
    }

    /// The same at this stage.
    fn take_up_at(&mut self, nth: usize, stage: &Stage, now: Moment) -> Result<bool, NoMemory>
        requires { StandsTold self.old }
        ensures { IfOk result (Turns (serving.take_up_at stage.now now.0 nth) self.old self.new) }
    {
        match stage {
            Stage::AtPrompt => self.take_line(nth, now),
            Stage::Connected(circuit) => self.write_text(nth, circuit, now),
            Stage::Trying(_) | Stage::Failed(_) => Ok(false),
        }
    }

    fn stage(&self, nth: usize) -> Option<Stage>
        ensures { (n : State) → HoldsTold self.now n → result ≡ serving.stage_of (users.session_at nth n) }
    {
        let session = self.session(nth)?;
        Some(session.stage())
    }

    /// Drops the sessions that are over.
    fn drop_over(&mut self)
        ensures { Steps serving.drop_over self.old self.new }
    {
        let set = &self.set;
        self.sessions.retain(|session| !is_over(set, session));
    }
}

/// Whether a session is over: its user is gone, and so is its circuit, and nothing is left of its texts and replies.
fn is_over(set: &CircuitSet<LinkTable>, session: &Session) -> bool
    ensures { (n : State) → SetHoldsTold set.now n → result ≡ serving.is_over n session.now }
{
    is_gone(set, session)
        && session.circuit().is_none()
        && session.first_reply().is_none()
        && !session.has_rest()
}
