//! What goes between a user and its circuit. Called by `serving`.
ghost use Rattle.std.specs.Prelude.{◌≡◌, IfOk, OnOk};
ghost use Rattle.node_model.specs.Bridging as bridging;
ghost use Rattle.node_model.specs.States.{State};
ghost use Rattle.node_model.specs.Users as users;

use crate::sessions::users::{has_taken, is_gone};
use crate::station::Station;
use l3_datagram::Message;
use node_model::{Circuit, Reply};
use node_prompt::Prompt;
use radio_base::{Moment, NoMemory};

impl Station {
    ghost use Rattle.node_core.specs.Going.{HoldsTold, StandsTold, Steps, Turns};
    ghost use Rattle.node_core.specs.Standing.{Holds};

    /// The prompt of this node.
    pub(crate) fn prompt(&self) -> Prompt
        ensures { (n : State) → Holds self.now n → result ≡ bridging.prompt_of n }
    {
        Prompt::new(self.alias, self.call())
    }

    /// Gives the user the first reply that waits. Whether one could be given.
    pub(crate) fn give_reply(&mut self, nth: usize, now: Moment) -> Result<bool, NoMemory>
        requires { StandsTold self.old }
        ensures { IfOk result (Turns (bridging.give_reply now.0 nth) self.old self.new) }
    {
        match self.next_reply(nth) {
            Some(reply) => {
                let text = reply_text(&self.prompt(), &reply);
                self.with_session(nth, |session| session.drop_reply());
                self.say(nth, &text, now)?;
                Ok(true)
            }
            None => Ok(false),
        }
    }

    /// The first reply that waits, where it can be given.
    fn next_reply(&self, nth: usize) -> Option<Reply>
        ensures { (n : State) → HoldsTold self.now n → result ≡ bridging.next_reply (users.session_at nth n) n }
    {
        let session = self.session(nth)?;
        if self.can_give(session) {
            session.first_reply()
        } else {
            None
        }
    }

    /// Gives the user the next message of its circuit. Whether one could be given.
    pub(crate) fn give_message(&mut self, nth: usize, now: Moment) -> Result<bool, NoMemory>
        requires { StandsTold self.old }
        ensures { IfOk result (Turns (bridging.give_message now.0 nth) self.old self.new) }
    {
        match self.giving_circuit(nth) {
            Some(circuit) => self.give_from(nth, circuit.id, now),
            None => Ok(false),
        }
    }

    /// The circuit of a session, where a message of it can be given.
    fn giving_circuit(&self, nth: usize) -> Option<Circuit>
        ensures { (n : State) → HoldsTold self.now n → result ≡ bridging.giving_circuit (users.session_at nth n) n }
    {
        let session = self.session(nth)?;
        let circuit = session.circuit()?;
        if self.can_pass_on(session, circuit.id) {
            Some(circuit)
        } else {
            None
        }
    }

    /// Gives the user the next message of the circuit of an end.
    fn give_from(&mut self, nth: usize, id: u64, now: Moment) -> Result<bool, NoMemory>
        requires { StandsTold self.old }
        ensures { IfOk result (Turns (bridging.give_from now.0 nth id) self.old self.new) }
    {
        let mut message = Message::new();
        let taken = has_taken(self.set.take(id, &mut message, now));
        if taken {
            self.pump(now)?;
            self.say(nth, &message, now)?;
        }
        Ok(taken)
    }

    /// Writes the next text of the user to its circuit, where that has room. Whether one was written.
    pub(crate) fn write_text(
        &mut self,
        nth: usize,
        circuit: &Circuit,
        now: Moment,
    ) -> Result<bool, NoMemory>
        requires { StandsTold self.old }
        ensures { IfOk result (Turns (bridging.write_text now.0 nth circuit.now) self.old self.new) }
    {
        if circuit.closed || !self.end_has_room(circuit.id) {
            return Ok(false);
        }
        if !self.next_text(nth, now)? {
            return Ok(false);
        }
        self.write_rest(nth, circuit.id, now)?;
        Ok(true)
    }

    /// Whether there is a text of the user: what is left of the last one, or else the next one, which is taken.
    pub(crate) fn next_text(&mut self, nth: usize, now: Moment) -> Result<bool, NoMemory>
        requires { StandsTold self.old }
        ensures { IfOk result (Turns (bridging.next_text now.0 nth) self.old self.new) }
    {
        if self.has_rest(nth) {
            return Ok(true);
        }
        self.take_text(nth, now)
    }

    fn has_rest(&self, nth: usize) -> bool
        ensures { (n : State) → HoldsTold self.now n → result ≡ bridging.has_rest (users.session_at nth n) }
    {
        self.session(nth).is_some_and(|session| session.has_rest())
    }

    /// Writes what is left of the text that was taken last to the circuit of an end.
    fn write_rest(&mut self, nth: usize, id: u64, now: Moment) -> Result<(), NoMemory>
        requires { StandsTold self.old }
        ensures { OnOk result (Steps (bridging.write_rest now.0 nth id) self.old self.new) }
    {
        let text = self.rest_of(nth);
        self.with_session(nth, |session| session.drop_rest());
        self.write_to(id, text.as_slice(), now)?;
        Ok(())
    }

    /// What is left of the text that was taken last.
    fn rest_of(&self, nth: usize) -> Message
        ensures { (n : State) → HoldsTold self.now n → result.items ≡ bridging.rest_of (users.session_at nth n) }
    {
        match self.session(nth) {
            Some(session) => session.rest_text(),
            None => Message::new(),
        }
    }

    /// Closes the circuit, once, where the user is gone and no text of it is left. Whether it was closed.
    pub(crate) fn close_circuit(&mut self, nth: usize, now: Moment) -> Result<bool, NoMemory>
        requires { StandsTold self.old }
        ensures { IfOk result (Turns (bridging.close_circuit now.0 nth) self.old self.new) }
    {
        match self.circuit_to_close(nth) {
            Some(circuit) => {
                self.with_session(nth, |session| session.note_closed());
                self.close_end(circuit.id, now)?;
                Ok(true)
            }
            None => Ok(false),
        }
    }

    fn circuit_to_close(&self, nth: usize) -> Option<Circuit>
        ensures { (n : State) → HoldsTold self.now n → result ≡ bridging.circuit_to_close (users.session_at nth n) n }
    {
        let session = self.session(nth)?;
        let circuit = session.circuit()?;
        if !circuit.closed && is_gone(&self.set, session) && !session.has_rest() {
            Some(circuit)
        } else {
            None
        }
    }
}

/// The text of a reply.
fn reply_text(prompt: &Prompt, reply: &Reply) -> Message
    ensures { result.items ≡ bridging.reply_text prompt.now reply.now }
{
    match reply {
        Reply::Connected(dest) => prompt.connected(dest),
        Reply::Refused(dest, why) => prompt.refused(dest, *why),
        Reply::Ended(dest) => prompt.ended(dest),
    }
}
