//! What waits at the ends of an agent is taken, heard and answered. Called by `mailing`.
ghost use Rattle.std.specs.Prelude.{◌≡◌, ◌-◌, ◌++◌, ℕ, suc, List, Option, OnOk, IfOk, IfErr, map, Some, Err};
ghost use Rattle.circuit_table.specs.CircuitSets.{held_ids};
ghost use Rattle.node_mail.specs.Lists.{octets_in};
ghost use Rattle.node_mail.specs.Wires.{Wire};
ghost use Rattle.net_world.specs.Agents as agents;
ghost use Rattle.net_world.specs.Agents.{AgentRuns};
ghost use Rattle.net_model.specs.Events.{event_of};
ghost use Rattle.net_model.specs.Mailing as mailing;
ghost use Rattle.net_model.specs.Mailing.{ends_here};
ghost use Rattle.net_world.specs.Running.{Runs, course};

use crate::world::World;
use ax_address::Call;
use l3_datagram::Message;
use net_model::{Answer, Event, LineAt, ReplayRefusal, StoredMail, hear_at};
use node_core::UserAct;
use node_mail::Heard;
use radio_base::NoMemory;

/// More messages than can wait at an end.
const MAX_TAKES: usize = 100_000;
/// Where the text of a mail begins in the message that offers it.
const TEXT_AT: usize = 16;

impl World<'_> {
    /// Takes in what waits at the ends of the node at a place, by number. `answers` gets what the line is to answer.
    pub(crate) fn take_at_ends(
        &mut self,
        here: LineAt,
        answers: &mut Vec<Event>,
    ) -> Result<(), ReplayRefusal>
        ensures { AgentRuns (course self.old) answers.old.items (course self.new) answers.new.items
            (λ a. mailing.take_at here.line here.node here.at (held_ids (ends_here here.at a.world)) a) result }
    {
        let ids = self.held_ids(here.at)?;
        for id in ids.as_slice() {
            self.take_all(here, *id, answers)?;
        }
        Ok(())
    }

    /// Takes one message after another at an end, until none waits.
    fn take_all(
        &mut self,
        here: LineAt,
        id: u64,
        answers: &mut Vec<Event>,
    ) -> Result<(), ReplayRefusal>
        ensures { AgentRuns (course self.old) answers.old.items (course self.new) answers.new.items
            (mailing.take_all here.line here.node here.at id) result }
    {
        for _ in 0..MAX_TAKES {
            let has_taken = self.take_one(here, id, answers)?;
            if !has_taken {
                return Ok(());
            }
        }
        Ok(())
    }

    /// Takes the first message that waits at an end, and hears it. Whether there was one.
    fn take_one(
        &mut self,
        here: LineAt,
        id: u64,
        answers: &mut Vec<Event>,
    ) -> Result<bool, ReplayRefusal>
        ensures ok { IfOk result (λ took. (more : ℕ)
            → agents.Takes (course self.old) answers.old.items (course self.new) answers.new.items
            (mailing.take_from here.line here.node here.at id (suc more))
            (mailing.take_from here.line here.node here.at id more) took) }
        ensures err { IfErr result (λ e. (more : ℕ)
            → AgentRuns (course self.old) answers.old.items (course self.new) answers.new.items
            (mailing.take_from here.line here.node here.at id (suc more)) (Err e)) }
    {
        if !self.has_message(here.at, id) {
            return Ok(false);
        }
        let from = self.partner_at(here.at, id);
        let answer = self.input(here, &UserAct::Take { id })?;
        match answer {
            Answer::Took(message) => match from {
                Some(from) => {
                    self.hear(here, id, &from, &message, answers)?;
                    Ok(true)
                }
                None => Ok(true),
            },
            Answer::Done => Ok(false),
            Answer::Refused(_) => Ok(false),
        }
    }

    /// Hears a message that was taken at an end, of the node of its partner, and writes the answer there.
    fn hear(
        &mut self,
        here: LineAt,
        id: u64,
        from: &Call,
        message: &[u8],
        answers: &mut Vec<Event>,
    ) -> Result<(), ReplayRefusal>
        ensures { AgentRuns (course self.old) answers.old.items (course self.new) answers.new.items
            (λ a. mailing.heard_by here.line here.node here.at id message.now (Some from.now)
            (mailing.mail_at here.at a.world) a) result }
    {
        let mut out = Message::new();
        let outcome = hear_at(&mut self.members, here.at, from, message, &mut out)?;
        match outcome {
            Some(heard) => {
                self.note_heard(here.node, from, message.len(), &heard, answers)?;
                self.write_answer(here, id, out.as_slice())
            }
            None => Ok(()),
        }
    }

    /// Writes an answer at an end, where there is one: it isn't empty.
    fn write_answer(&mut self, here: LineAt, id: u64, answer: &[u8]) -> Result<(), ReplayRefusal>
        ensures { (wire : Option Wire) → answer.now ≡ octets_in wire
            → Runs (course self.old) (course self.new) (mailing.write_answer_to here.line here.at id wire) result }
    {
        if answer.is_empty() {
            return Ok(());
        }
        self.write_if_taken(here, id, answer)?;
        Ok(())
    }

    /// Keeps what the line is to answer of a message of so many octets that was heard.
    fn note_heard(
        &self,
        node: u8,
        from: &Call,
        octets: usize,
        heard: &Heard,
        answers: &mut Vec<Event>,
    ) -> Result<(), NoMemory>
        ensures { OnOk result (map event_of answers.new.items
            ≡ map event_of answers.old.items ++ mailing.heard_events node from.now (octets - 16) heard.now) }
    {
        match heard {
            Heard::Stored { number, to } => {
                let mail = StoredMail {
                    origin: *from,
                    number: *number,
                    to: *to,
                    len: octets.saturating_sub(TEXT_AT),
                };
                let mail = Box::new(self.alloc, mail)?;
                answers.push(Event::MailStored { node, mail })?;
                Ok(())
            }
            Heard::Settled { number } => {
                answers.push(Event::MailSettled {
                    node,
                    number: *number,
                })?;
                Ok(())
            }
            Heard::Again { .. } | Heard::Stray { .. } | Heard::Full { .. } | Heard::Bad => Ok(()),
        }
    }
}
