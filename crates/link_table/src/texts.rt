//! Texts that come over a link: which payloads are texts, and taking them (the PIDs: AX.25 2.2, section 3.4).
//! Called by `text_calls` and `work`.
ghost use Rattle.std.specs.Prelude.{◌≡◌, ◌≤◌, Some, OnErr, OnOk, IfOk, IsSomeAnd, is_some, length, true};
ghost use Rattle.std.specs.Option.{ForSome};
ghost use Rattle.ax_link.specs.Standing.{IsDrained};
ghost use Rattle.ax_segment.specs.Joining.{join_step, whole_of, IsWithin};
ghost use Rattle.link_table.specs.Standing.{text_among};
ghost use Rattle.link_table.specs.Texts as texts;
ghost use Rattle.link_table.specs.Works as works;

use crate::entry::LinkEntry;
use crate::pending::Pending;
use ax_segment::{Joined, Joiner};
use l3_datagram::Message;
use radio_base::{Moment, NoMemory, Payload, SEGMENT_PID, TEXT_PID};

/// The most bytes of a text that is joined from segments, or sent.
pub(crate) const MAX_TEXT: usize = 8192;

impl LinkEntry {
    ghost use Rattle.link_table.specs.Standing.{EntryGoes, held_of, joined_with, text_in};

    /// Whether a payload is a text, or a segment at which the joiner would give one.
    pub(crate) fn is_text(&self, payload: &Payload) -> bool
        ensures { result ≡ works.is_text self.now.joiner payload.now }
    {
        if payload.pid == TEXT_PID {
            return 1 <= payload.info.len();
        }
        if payload.pid == SEGMENT_PID {
            return is_text_by(self.joiner.whole_by(payload.info.as_slice()));
        }
        false
    }

    /// Whether a text waits at the link.
    pub(crate) fn text_waits(&self) -> bool
        ensures { result ≡ is_some (text_in self.now) }
    {
        match self.link.first() {
            Some(payload) => {
                if self.is_text(payload) {
                    return true;
                }
                false
            }
            None => false,
        }
    }

    /// Takes the text that waits, and then what waited behind it, up to the next text. It is handed out last of all, when no more memory
    /// is asked for.
    pub(crate) fn take_text(
        &mut self,
        pending: &mut Pending,
        out: &mut Message,
        now: Moment,
    ) -> Result<(), NoMemory>
        requires drained { IsDrained (held_of self.old.link) }
        requires waits { is_some (text_in self.old) ≡ true }
        ensures drained { OnOk result (IsDrained (held_of self.new.link)) }
        ensures text { OnOk result (text_in self.old ≡ Some out.new.items) }
        ensures err { OnErr result (out.new ≡ out.old) }
        ensures goes { OnOk result (EntryGoes
            (texts.take_text_of self.old.route.own now.0) self.old self.new pending.old pending.new) }
    {
        match self.link.take(now) {
            None => Ok(()),
            Some(payload) => {
                self.lift(pending)?;
                let joined = self.join_text(&payload)?;
                self.settle(pending, now)?;
                hand_out(&payload, &joined, out);
                Ok(())
            }
        }
    }

    /// Hands a segment to the joiner, and gives the message that is whole with it. None where the payload is the text itself.
    fn join_text(&mut self, payload: &Payload) -> Result<Option<Vec<u8>>, NoMemory>
        requires { works.is_text self.old.joiner payload.now ≡ true }
        ensures rest { OnOk result (self.new ≡ record self.old { joiner = joined_with payload.now self.old.joiner }) }
        ensures within { OnOk result (IsWithin self.old.joiner → IsWithin self.new.joiner) }
        ensures text { IfOk result (λ joined.
            text_among payload.now joined ≡ texts.text_of self.old.joiner payload.now) }
        ensures few { IfOk result (λ joined. ForSome joined (λ message. length message.items ≤ 8192)) }
    {
        if payload.pid == TEXT_PID {
            return Ok(None);
        }
        let message = join_whole(&mut self.joiner, payload.info.as_slice())?;
        Ok(message)
    }
}

/// Whether a message is a text, by its PID and number of bytes.
fn is_text_by(message: Option<(u8, usize)>) -> bool
    ensures { result ≡ works.text_by message }
{
    match message {
        Some((pid, len)) => pid == TEXT_PID && 1 <= len && len <= MAX_TEXT,
        None => false,
    }
}

/// Hands a segment to the joiner that makes a text whole with it.
fn join_whole(joiner: &mut Joiner, segment: &[u8]) -> Result<Option<Vec<u8>>, NoMemory>
    requires few { length segment.now ≤ 256 }
    requires text { works.text_by (whole_of (join_step joiner.old segment.now).1) ≡ true }
    ensures joiner { OnOk result (joiner.new ≡ (join_step joiner.old segment.now).0) }
    ensures within { OnOk result (IsWithin joiner.old → IsWithin joiner.new) }
    ensures text { IfOk result (λ joined. IsSomeAnd joined (λ message.
        message.items ≡ texts.message_of (join_step joiner.old segment.now).1)) }
    ensures few { IfOk result (λ joined. ForSome joined (λ message. length message.items ≤ 8192)) }
{
    match joiner.push(segment)? {
        Joined::Whole { message, .. } => Ok(Some(message)),
        _ => Ok(None),
    }
}

/// Hands out what was joined, or the payload where it is the text itself.
fn hand_out(payload: &Payload, joined: &Option<Vec<u8>>, out: &mut Message)
    requires { ForSome joined.now (λ message. length message.items ≤ 8192) }
    ensures { out.new.items ≡ text_among payload.now joined.now }
{
    out.clear();
    match joined {
        Some(message) => {
            let _ = out.try_extend_from_slice(message.as_slice());
        }
        None => {
            let _ = out.try_extend_from_slice(payload.info.as_slice());
        }
    }
}
