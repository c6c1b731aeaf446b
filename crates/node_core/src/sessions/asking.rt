//! The lines of a user at the prompt. Called by `serving`.
ghost use Rattle.std.specs.Prelude.{◌≡◌, IfOk, OnOk, ◌≢◌};
ghost use Rattle.circuit_table.specs.declared.refusal.ConnectRefusal.TheVariants as connecting;
ghost use Rattle.node_model.specs.Asking as asking;
ghost use Rattle.node_model.specs.States.{State};
ghost use Rattle.node_model.specs.Users as users;

use crate::station::Station;
use ax_address::Call;
use circuit_table::ConnectRefusal;
use l3_datagram::Message;
use node_prompt::{Action, Sight, Trouble};
use radio_base::{Moment, NoMemory};

impl Station {
    ghost use Rattle.node_core.specs.Going.{HoldsTold, StandsTold, Steps, Turns};

    /// Does the next line of a user at the prompt, where its side has room for the reply; the texts of one that is told nothing more
    /// are dropped. Whether there was any.
    pub(crate) fn take_line(&mut self, nth: usize, now: Moment) -> Result<bool, NoMemory>
        requires { StandsTold self.old }
        ensures { IfOk result (Turns (asking.take_line now.0 nth) self.old self.new) }
    {
        if self.is_deaf_at(nth) {
            return self.drop_text_of(nth, now);
        }
        if !self.has_room_at(nth) {
            return Ok(false);
        }
        self.do_next_line(nth, now)
    }

    fn is_deaf_at(&self, nth: usize) -> bool
        ensures { (n : State) → HoldsTold self.now n → result ≡ asking.is_deaf_at (users.session_at nth n) n }
    {
        self.session(nth)
            .is_some_and(|session| self.is_deaf(session))
    }

    fn has_room_at(&self, nth: usize) -> bool
        ensures { (n : State) → HoldsTold self.now n → result ≡ asking.has_room_at (users.session_at nth n) n }
    {
        self.session(nth)
            .is_some_and(|session| self.has_room(session))
    }

    /// Drops the next text of a user.
    fn drop_text_of(&mut self, nth: usize, now: Moment) -> Result<bool, NoMemory>
        requires { StandsTold self.old }
        ensures { IfOk result (Turns (asking.drop_text_of now.0 nth) self.old self.new) }
    {
        if !self.next_text(nth, now)? {
            return Ok(false);
        }
        self.with_session(nth, |session| session.drop_rest());
        Ok(true)
    }

    /// Does the next line of a user.
    fn do_next_line(&mut self, nth: usize, now: Moment) -> Result<bool, NoMemory>
        requires { StandsTold self.old }
        ensures { IfOk result (Turns (asking.do_next_line now.0 nth) self.old self.new) }
    {
        if !self.next_text(nth, now)? {
            return Ok(false);
        }
        self.do_line(nth, now)?;
        Ok(true)
    }

    /// Does the first line of what is left of the text.
    fn do_line(&mut self, nth: usize, now: Moment) -> Result<(), NoMemory>
        requires { StandsTold self.old }
        ensures { OnOk result (Steps (asking.do_line now.0 nth) self.old self.new) }
    {
        let action = self.action(nth);
        self.with_session(nth, |session| session.cut_line());
        self.do_action(nth, &action, now)?;
        Ok(())
    }

    /// What is to be done for that line.
    fn action(&self, nth: usize) -> Action
        ensures { (n : State) → HoldsTold self.now n → result ≡ asking.action_at (users.session_at nth n) n }
    {
        match self.session(nth) {
            Some(session) => self.prompt().line(session.line()),
            None => Action::Nothing,
        }
    }

    /// Does what is to be done for a line.
    fn do_action(&mut self, nth: usize, action: &Action, now: Moment) -> Result<(), NoMemory>
        requires { StandsTold self.old }
        ensures { OnOk result (Steps (asking.do_action now.0 nth action.now) self.old self.new) }
    {
        match action {
            Action::Say(text) => self.say(nth, text, now),
            Action::Show(sight) => self.show(nth, sight, now),
            Action::Bye(text) => self.say_bye(nth, text, now),
            Action::Connect(dest) => self.try_circuit(nth, dest, now),
            Action::Nothing => Ok(()),
        }
    }

    /// Says what there is to see.
    fn show(&mut self, nth: usize, sight: &Sight, now: Moment) -> Result<(), NoMemory>
        requires { StandsTold self.old }
        ensures { OnOk result (Steps (asking.show now.0 nth sight.now) self.old self.new) }
    {
        let view = self.view(sight)?;
        let text = self.prompt().show(&view);
        self.say(nth, &text, now)?;
        Ok(())
    }

    /// Says the last text to a user, and closes its side. What is left of its text is dropped.
    fn say_bye(&mut self, nth: usize, text: &Message, now: Moment) -> Result<(), NoMemory>
        requires { StandsTold self.old }
        ensures { OnOk result (Steps (asking.say_bye now.0 nth text.now.items) self.old self.new) }
    {
        self.say(nth, text, now)?;
        self.with_session(nth, |session| session.say_bye());
        self.close_user(nth, now)?;
        Ok(())
    }

    /// Asks for a circuit, and tells the user that it is tried, or why it isn't.
    fn try_circuit(&mut self, nth: usize, dest: &Call, now: Moment) -> Result<(), NoMemory>
        requires { StandsTold self.old }
        ensures { OnOk result (Steps (asking.try_circuit now.0 nth dest.now) self.old self.new) }
    {
        match self.set.connect(dest, now) {
            Ok(id) => {
                self.with_session(nth, |session| session.tries(id, dest));
                self.pump(now)?;
                let text = self.prompt().trying(dest);
                self.say(nth, &text, now)?;
                Ok(())
            }
            Err(why) => {
                let trouble = trouble_of(why)?;
                let text = self.prompt().refused(dest, trouble);
                self.say(nth, &text, now)?;
                Ok(())
            }
        }
    }
}

/// Why a circuit isn't tried, unless for want of memory.
fn trouble_of(why: ConnectRefusal) -> Result<Trouble, NoMemory>
    ensures trouble { IfOk result (λ trouble. trouble ≡ asking.trouble_of why) }
    ensures unspent { OnOk result (why ≢ connecting.NoMemory) }
{
    match why {
        ConnectRefusal::Own => Ok(Trouble::Own),
        ConnectRefusal::NoRoute => Ok(Trouble::NoRoute),
        ConnectRefusal::Full => Ok(Trouble::Full),
        ConnectRefusal::NoMemory => Err(NoMemory),
    }
}
