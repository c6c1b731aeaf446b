//! The moves of which a link's steps are made: Fill, Again, Poll, Reset and the rest. Called by `calls`, `arrivals`, `expiry`, `texts` and
//! `early`.
ghost use Rattle.std.specs.Prelude.{◌≡◌, ℕ, Bool, List, ◌+◌, ◌-◌, ◌*◌, ◌≤◌, ◌<◌, ◌++◌, ◌∷◌, [], nat_eq, nat_le, length, drop, slice_get, true, false, None, Some};
ghost use Rattle.circular_buffer.specs.Buffer.{buffer};

use crate::machine::{Machine, push};
use crate::out::LinkOut;
use crate::phase::LinkPhase;
use ax_frame::Control;
use circular_buffer::HeapCircularBuffer;
use radio_base::{Millis, Modulus, Payload};

/// A payload with the same text.
pub(crate) fn copy_of(payload: &Payload) -> Payload
    ensures same { result ≡ payload.now }
    ensures small { length payload.now.info.items ≤ 256 }
{
    Payload::of(payload.pid, payload.info.as_slice())
}

/// Drops so many payloads from the front.
fn drop_front(queue: &mut HeapCircularBuffer<Payload>, many: u64)
    ensures { queue.new ≡ buffer (drop many queue.old.items) queue.old.capacity }
{
    for done in 0..many {
        let _ = queue.pop_front();
    }
}

impl<M: Modulus> Machine<M> {
    ghost use Rattle.radio_base.specs.declared.payload.Payload.{Payload};
    ghost use Rattle.ax_link.specs.Moves as moves;
    ghost use Rattle.ax_link.specs.Standing.{Adds, state_of};
    ghost use Rattle.ax_link.specs.Calls.{Does, EmitsTexts, view_of, texts_out, emit_rr};

    /// The payload of this number, where it waits.
    fn text_of(&self, number: u64) -> Option<Payload>
        requires { self.now.acked ≤ number }
        ensures { result ≡ slice_get self.now.queue.items (number - self.now.acked) }
    {
        match self.queue.get((number - self.acked) as usize) {
            Some(payload) => Some(copy_of(payload)),
            None => None,
        }
    }

    /// Puts out the payload of this number.
    fn emit_text(&mut self, number: u64)
        requires waits { self.old.acked ≤ number }
        requires given { number < self.old.acked + length self.old.queue.items }
        requires room { length self.old.outs.items < 2 * self.old.window + 4 }
        ensures puts { EmitsTexts M.SIZE number 1 (view_of self.old) (view_of self.new) }
        ensures adds { Adds 1 (view_of self.old) (view_of self.new) }
    {
        let control = Control::I {
            ns: M::wire(number),
            nr: M::wire(self.got),
            pf: false,
        };
        let payload = self.text_of(number);
        let out = LinkOut {
            command: true,
            control,
            payload,
        };
        push(&mut self.outs, out);
    }

    /// Puts out `many` payloads from this number on.
    pub(crate) fn emit_texts(&mut self, from: u64, many: u64)
        requires waits { self.old.acked ≤ from }
        requires given { from + many ≤ self.old.acked + length self.old.queue.items }
        requires room { length self.old.outs.items + many ≤ 2 * self.old.window + 4 }
        ensures puts { EmitsTexts M.SIZE from many (view_of self.old) (view_of self.new) }
        ensures does { Does M.SIZE (texts_out from many) self.old self.new }
        ensures adds { Adds many (view_of self.old) (view_of self.new) }
    {
        for number in from..from + many {
            self.emit_text(number);
        }
    }

    /// Tells where this end stands, as a response.
    pub(crate) fn emit_rr(&mut self, pf: bool)
        requires { length self.old.outs.items + 1 ≤ 2 * self.old.window + 4 }
        ensures does { Does M.SIZE (emit_rr pf) self.old self.new }
        ensures adds { Adds 1 (view_of self.old) (view_of self.new) }
    {
        let control = self.ready(pf);
        self.emit(false, control);
    }

    /// A poll asks for an answer.
    pub(crate) fn answer_poll(&mut self, poll: bool)
        requires { length self.old.outs.items + 1 ≤ 2 * self.old.window + 4 }
        ensures does { Does M.SIZE (moves.answer_poll poll) self.old self.new }
        ensures adds { Adds 1 (view_of self.old) (view_of self.new) }
    {
        if poll {
            self.emit_rr(true);
        }
    }

    /// How many payloads may be put out.
    pub(crate) fn fill_count(&self) -> u64
        ensures exact { (before received : List Payload) → length before ≡ self.now.acked →
            result ≡ moves.fill_count (state_of M.SIZE (view_of self.now) before received) }
        ensures window { self.now.sent + result ≤ self.now.acked + self.now.window }
        ensures given { self.now.sent + result ≤ self.now.acked + length self.now.queue.items }
    {
        if self.is_up() && !(self.polling || self.peer_busy) {
            let room = self.acked + self.window - self.sent;
            let ready = self.acked + self.queue.len() as u64 - self.sent;
            room.min(ready)
        } else {
            0
        }
    }

    /// Puts out what may be put out.
    pub(crate) fn fill(&mut self, now: Millis)
        requires room { length self.old.outs.items + self.old.window ≤ 2 * self.old.window + 4 }
        ensures does { Does M.SIZE (moves.fill now) self.old self.new }
        ensures adds { Adds self.old.window (view_of self.old) (view_of self.new) }
    {
        let many = self.fill_count();
        let ran = self.t1_runs();
        self.emit_texts(self.sent, many);
        self.sent += many;
        self.update_t1(ran, now);
    }

    /// A link that is to be closed is released once all is acknowledged.
    pub(crate) fn finish(&mut self, now: Millis)
        requires room { length self.old.outs.items + 1 ≤ 2 * self.old.window + 4 }
        ensures does { Does M.SIZE (moves.finish now) self.old self.new }
        ensures adds { Adds 1 (view_of self.old) (view_of self.new) }
    {
        if self.is_up() && self.closing && self.all_acknowledged() {
            self.release(now);
        }
    }

    fn all_acknowledged(&self) -> bool
        ensures { (before : List Payload) → length before ≡ self.now.acked →
            result ≡ nat_eq self.now.acked (length (before ++ self.now.queue.items)) }
    {
        self.queue.is_empty()
    }

    fn release(&mut self, now: Millis)
        requires room { length self.old.outs.items + 1 ≤ 2 * self.old.window + 4 }
        ensures does { Does M.SIZE (moves.release now) self.old self.new }
        ensures adds { Adds 1 (view_of self.old) (view_of self.new) }
    {
        self.tries = 0;
        self.to_phase(LinkPhase::Releasing, now);
        self.emit_timed(Control::Disc { pf: true }, now);
    }

    pub(crate) fn fill_and_finish(&mut self, now: Millis)
        requires room { length self.old.outs.items + self.old.window + 1 ≤ 2 * self.old.window + 4 }
        ensures does { Does M.SIZE (moves.supply now) self.old self.new }
        ensures adds { Adds (self.old.window + 1) (view_of self.old) (view_of self.new) }
    {
        self.fill(now);
        self.finish(now);
    }

    /// Puts out again what was put out and isn't acknowledged.
    pub(crate) fn again(&mut self, now: Millis)
        requires room { length self.old.outs.items + self.old.window ≤ 2 * self.old.window + 4 }
        ensures does { Does M.SIZE (moves.again now) self.old self.new }
        ensures adds { Adds self.old.window (view_of self.old) (view_of self.new) }
    {
        self.emit_texts(self.acked, self.sent - self.acked);
        self.t1_at = now.ms() + self.t1;
    }

    /// The other station has all payloads below this number.
    pub(crate) fn acknowledge(&mut self, below: u64, now: Millis)
        requires below { below ≤ self.old.sent }
        ensures does { Does M.SIZE (moves.acknowledge now below) self.old self.new }
        ensures adds { Adds 0 (view_of self.old) (view_of self.new) }
        ensures acked { self.old.acked ≤ below → self.new.acked ≡ below }
        ensures sent { self.new.sent ≡ self.old.sent }
    {
        if self.acked < below {
            let ran = self.t1_runs();
            drop_front(&mut self.queue, below - self.acked);
            self.acked = below;
            self.tries = 0;
            self.update_t1(ran, now);
            self.t1_at = now.ms() + self.t1;
        }
    }

    /// Whether the other station is busy.
    pub(crate) fn hold(&mut self, peer_busy: bool, now: Millis)
        ensures does { Does M.SIZE (moves.hold now peer_busy) self.old self.new }
        ensures adds { Adds 0 (view_of self.old) (view_of self.new) }
    {
        let ran = self.t1_runs();
        self.peer_busy = peer_busy;
        self.update_t1(ran, now);
    }

    /// Asks the other station where it stands.
    pub(crate) fn start_poll(&mut self, now: Millis)
        requires room { length self.old.outs.items + 1 ≤ 2 * self.old.window + 4 }
        ensures does { Does M.SIZE (moves.start_poll now) self.old self.new }
        ensures adds { Adds 1 (view_of self.old) (view_of self.new) }
    {
        self.await_final(now);
        let control = self.ready(true);
        self.emit_timed(control, now);
    }

    /// A response with the final bit is awaited.
    fn await_final(&mut self, now: Millis)
        ensures does { Does M.SIZE (moves.await_final now) self.old self.new }
        ensures adds { Adds 0 (view_of self.old) (view_of self.new) }
    {
        let ran = self.t1_runs();
        self.polling = true;
        self.update_t1(ran, now);
    }

    pub(crate) fn end_poll(&mut self, now: Millis)
        ensures does { Does M.SIZE (moves.end_poll now) self.old self.new }
        ensures adds { Adds 0 (view_of self.old) (view_of self.new) }
        ensures acked { self.new.acked ≡ self.old.acked }
        ensures sent { self.new.sent ≡ self.old.sent }
    {
        let ran = self.t1_runs();
        self.polling = false;
        self.tries = 0;
        self.update_t1(ran, now);
    }
}
