//! The moves of which an end's steps are made: Fill, Finish, Again and the rest. Called by `arrivals`, `calls`, `expiry` and `texts`.
ghost use Rattle.std.specs.Prelude.{◌≡◌, ℕ, ◌+◌, ◌*◌, ◌≤◌, ◌<◌, length};
ghost use Rattle.radio_base.specs.declared.modulus.TheConstants.{COUNT_MAX};

use crate::machine::Machine;
use crate::output::Output;
use crate::phase::EndPhase;
use crate::transport::Flags;
use radio_base::{M256, Millis, Modulus};

impl Machine {
    ghost use Rattle.circuit_l4.specs.Moves as moves;
    ghost use Rattle.circuit_l4.specs.Calls.{Adds, Does};
    ghost use Rattle.circuit_l4.specs.Standing.{view_of, state_of};
    ghost use Rattle.circuit_l4.specs.Halves.{IsSending};
    ghost use Rattle.circuit_l4.specs.State.{Sending, Receiving};

    /// Puts out the fragment of this number, where it waits.
    fn emit_info(&mut self, number: u64)
        requires waits { self.old.outgoing.acked ≤ number }
        requires room { length self.old.outs.items < 2 * self.old.config.window + 2 }
        ensures does { Does (moves.emit_infos number 1) self.old self.new }
        ensures adds { Adds 1 self.old self.new }
        ensures rest { view_of self.new ≡ record (view_of self.old) { outs = (view_of self.new).outs } }
    {
        if number < self.outgoing.total() {
            let info = Output::Info {
                to: self.to,
                number,
                rx: M256::wire(self.incoming.got()),
                choke: self.incoming.is_busy(),
            };
            self.emit(info);
        }
    }

    /// Puts out the fragments of many numbers from this one on.
    pub(crate) fn emit_infos(&mut self, from: u64, many: u64)
        requires waits { self.old.outgoing.acked ≤ from }
        requires numbers { from + many ≤ COUNT_MAX }
        requires room { length self.old.outs.items + many ≤ 2 * self.old.config.window + 2 }
        ensures does { Does (moves.emit_infos from many) self.old self.new }
        ensures adds { Adds many self.old self.new }
        ensures rest { view_of self.new ≡ record (view_of self.old) { outs = (view_of self.new).outs } }
    {
        for number in from..from + many {
            self.emit_info(number);
        }
    }

    /// Tells what was got.
    pub(crate) fn emit_ack(&mut self, nak: bool)
        requires { length self.old.outs.items < 2 * self.old.config.window + 2 }
        ensures does { Does (moves.emit_ack nak) self.old self.new }
        ensures adds { Adds 1 self.old self.new }
        ensures rest { view_of self.new ≡ record (view_of self.old) { outs = (view_of self.new).outs } }
    {
        let flags = Flags {
            choke: self.incoming.is_busy(),
            nak,
            more: false,
        };
        let info_ack = Output::InfoAck {
            to: self.to,
            rx: M256::wire(self.incoming.got()),
            flags,
        };
        self.emit(info_ack);
    }

    /// How many fragments may be put out.
    pub(crate) fn fill_count(&self) -> u64
        ensures exact { (s : Sending) (r : Receiving) → IsSending self.now.outgoing s →
            result ≡ moves.fill_count (state_of (view_of self.now) s r) }
        ensures window { self.now.outgoing.sent + result ≤ self.now.outgoing.acked + self.now.config.window }
        ensures written { self.now.outgoing.sent + result ≤ self.now.outgoing.total }
    {
        if self.is_up() && !self.choked {
            let sent = self.outgoing.sent();
            let room = (self.outgoing.acked() + self.window as u64).saturating_sub(sent);
            room.min(self.outgoing.total() - sent)
        } else {
            0
        }
    }

    /// Puts out what the window has room for.
    pub(crate) fn fill(&mut self, now: Millis)
        requires room { length self.old.outs.items + self.old.config.window ≤ 2 * self.old.config.window + 2 }
        ensures does { Does (moves.fill now) self.old self.new }
        ensures adds { Adds self.old.config.window self.old self.new }
    {
        let many = self.fill_count();
        let sent = self.outgoing.sent();
        self.emit_infos(sent, many);
        self.count_out(many, now);
    }

    /// So many fragments are out: an answer is awaited.
    fn count_out(&mut self, many: u64, now: Millis)
        requires window { self.old.outgoing.sent + many ≤ self.old.outgoing.acked + self.old.config.window }
        requires written { self.old.outgoing.sent + many ≤ self.old.outgoing.total }
        ensures does { Does (moves.on_state (moves.count_out now many)) self.old self.new }
        ensures adds { Adds 0 self.old self.new }
    {
        self.outgoing.put_out(many);
        if many > 0 && self.answer_due.is_none() {
            self.wait(now);
        }
    }

    /// An end that is to close begins to, once all is acknowledged.
    pub(crate) fn finish(&mut self, now: Millis)
        requires room { length self.old.outs.items + 1 ≤ 2 * self.old.config.window + 2 }
        ensures does { Does (moves.finish now) self.old self.new }
        ensures adds { Adds 1 self.old self.new }
    {
        if self.is_done() {
            self.begin_to_close(now);
        }
    }

    fn is_done(&self) -> bool
        ensures { (s : Sending) (r : Receiving) → IsSending self.now.outgoing s →
            result ≡ moves.is_done (state_of (view_of self.now) s r) }
    {
        self.is_up() && self.closing && self.outgoing.acked() == self.outgoing.total()
    }

    fn begin_to_close(&mut self, now: Millis)
        requires room { length self.old.outs.items + 1 ≤ 2 * self.old.config.window + 2 }
        ensures does { Does (moves.begin_to_close now) self.old self.new }
        ensures adds { Adds 1 self.old self.new }
    {
        self.emit(Output::Disconnect { to: self.to });
        self.phase = EndPhase::Closing;
        self.choked = false;
        self.tries = 0;
        self.wait(now);
    }

    pub(crate) fn fill_and_finish(&mut self, now: Millis)
        requires room { length self.old.outs.items + self.old.config.window + 1 ≤ 2 * self.old.config.window + 2 }
        ensures does { Does (moves.supply now) self.old self.new }
        ensures adds { Adds (self.old.config.window + 1) self.old self.new }
    {
        self.fill(now);
        self.finish(now);
    }

    /// Puts out again what was put out and isn't acknowledged.
    pub(crate) fn again(&mut self)
        requires { length self.old.outs.items + self.old.config.window ≤ 2 * self.old.config.window + 2 }
        ensures does { Does moves.again self.old self.new }
        ensures adds { Adds self.old.config.window self.old self.new }
        ensures rest { view_of self.new ≡ record (view_of self.old) { outs = (view_of self.new).outs } }
    {
        let acked = self.outgoing.acked();
        let sent = self.outgoing.sent();
        self.emit_infos(acked, sent - acked);
    }
}
