//! What an end does with the text of an Info. Called by `arrivals`.
ghost use Rattle.std.specs.Prelude.{◌≡◌, ℕ, suc, ◌+◌, ◌-◌, ◌*◌, ◌≤◌, [], length, None, IfSome};

use crate::info::Info;
use crate::machine::Machine;
use crate::notice::EndNotice;
use crate::owed::Owed;
use crate::piece::Piece;
use crate::transport::Flags;
use circuit_reassembly::Oversize;
use radio_base::{M256, Millis, Modulus};

impl Machine {
    ghost use Rattle.radio_base.specs.Modulus.{place_of};
    ghost use Rattle.circuit_l4.specs.State.{Effect, Sending, Receiving, receive};
    ghost use Rattle.circuit_l4.specs.Moves as moves;
    ghost use Rattle.circuit_l4.specs.Calls.{Adds, Does, IsIdle, IsOwed};
    ghost use Rattle.circuit_l4.specs.Standing.{KeepsEffect, view_of, state_of};
    ghost use Rattle.circuit_l4.specs.Halves.{IsSending, receipt_answer};

    /// An acknowledgement for itself.
    pub(crate) fn on_info_ack(&mut self, rx: u8, flags: Flags, now: Millis)
        requires outs { self.old.outs.items ≡ [] }
        ensures does { Does (moves.on_info_ack now rx flags) self.old self.new }
        ensures config { self.new.config ≡ self.old.config }
    {
        let owed = self.acknowledge(rx, flags, now);
        self.emit_owed(owed);
        self.fill_and_finish(now);
    }

    /// An information message: its acknowledgement first, then its text.
    pub(crate) fn on_info(&mut self, info: &Info<'_>, now: Millis)
        requires { IsIdle self.old }
        ensures does { Does
            (moves.on_info now info.now.tx info.now.rx info.now.flags info.now.piece.now) self.old self.new }
        ensures config { self.new.config ≡ self.old.config }
    {
        let owed = self.acknowledge(info.rx, info.flags, now);
        match self.receive(info.tx, info.piece) {
            Ok(asks) => self.answer_all(asks, owed, now),
            Err(Oversize) => self.end(EndNotice::FailedOversize),
        }
    }

    /// The text of a message has come. Answers whether a negative acknowledgement is owed.
    fn receive(&mut self, tx: u8, piece: &Piece) -> Result<bool, Oversize>
        ensures does { (g : Effect) → KeepsEffect (view_of self.old) g →
            KeepsEffect (view_of self.new)
            (moves.with_receiving (receive g.end.window tx piece.now g.end.receiving).half g)
            × (result ≡ receipt_answer (receive g.end.window tx piece.now g.end.receiving)) }
        ensures adds { Adds 0 self.old self.new }
        ensures outgoing { self.new.outgoing ≡ self.old.outgoing }
    {
        self.incoming.receive(self.window as u64, tx, piece)
    }

    /// A text that fits its message is answered, and all goes out that has to.
    fn answer_all(&mut self, nak: bool, owed: Owed, now: Millis)
        requires outs { self.old.outs.items ≡ [] }
        requires owed { IsOwed owed self.old }
        ensures does { Does (moves.answer_all now nak owed) self.old self.new }
        ensures config { self.new.config ≡ self.old.config }
    {
        self.answer(nak, owed);
        self.emit_owed(owed);
        self.fill_and_finish(now);
    }

    /// The acknowledgement part of a message. Answers what has to be put out once more.
    fn acknowledge(&mut self, rx: u8, flags: Flags, now: Millis) -> Owed
        requires outs { self.old.outs.items ≡ [] }
        ensures does { (g : Effect) → KeepsEffect (view_of self.old) g →
            KeepsEffect (view_of self.new) (moves.on_state (λ s. (moves.acknowledge now rx flags s).end) g)
            × (result ≡ (moves.acknowledge now rx flags g.end).owed) }
        ensures adds { Adds 0 self.old self.new }
        ensures owed { IsOwed result self.new }
    {
        match self.acknowledged_by(rx) {
            Some(below) => self.acknowledge_at(below, flags, now),
            None => self.nothing_owed(),
        }
    }

    /// Where an acknowledgement stands among what is out.
    fn acknowledged_by(&self, rx: u8) -> Option<u64>
        ensures exact { (s : Sending) → IsSending self.now.outgoing s →
            result ≡ place_of 256 rx s.acked (suc (s.sent - s.acked)) }
        ensures bounds { IfSome result (λ below. (self.now.outgoing.acked ≤ below) × (below ≤ self.now.outgoing.sent)) }
    {
        let acked = self.outgoing.acked();
        M256::place(rx, acked, self.outgoing.sent() - acked + 1)
    }

    fn acknowledge_at(&mut self, below: u64, flags: Flags, now: Millis) -> Owed
        requires from { self.old.outgoing.acked ≤ below }
        requires to { below ≤ self.old.outgoing.sent }
        requires outs { self.old.outs.items ≡ [] }
        ensures does { (g : Effect) → KeepsEffect (view_of self.old) g →
            KeepsEffect (view_of self.new) (moves.on_state (λ s. (moves.acknowledge_at now flags below s).end) g)
            × (result ≡ (moves.acknowledge_at now flags below g.end).owed) }
        ensures adds { Adds 0 self.old self.new }
        ensures owed { IsOwed result self.new }
    {
        self.advance(below, now);
        let owed = self.owed_by(flags, below);
        self.hold(flags.choke, now);
        owed
    }

    /// The fragments below this number are acknowledged.
    fn advance(&mut self, below: u64, now: Millis)
        requires from { self.old.outgoing.acked ≤ below }
        requires to { below ≤ self.old.outgoing.sent }
        requires outs { self.old.outs.items ≡ [] }
        ensures does { Does (moves.on_state (moves.advance now below)) self.old self.new }
        ensures adds { Adds 0 self.old self.new }
        ensures acked { self.new.outgoing.acked ≡ below }
        ensures sent { self.new.outgoing.sent ≡ self.old.outgoing.sent }
    {
        if self.outgoing.acked() < below {
            self.outgoing.acknowledge(below);
            self.tries = 0;
            self.wait_if_out(now);
        }
    }

    fn nothing_owed(&self) -> Owed
        ensures exact { (s : Sending) (r : Receiving) → IsSending self.now.outgoing s →
            result ≡ moves.nothing_owed (state_of (view_of self.now) s r) }
        ensures owed { IsOwed result self.now }
    {
        Owed {
            from: self.outgoing.acked(),
            many: 0,
        }
    }

    fn owed_by(&self, flags: Flags, below: u64) -> Owed
        requires from { self.now.outgoing.acked ≤ below }
        requires to { below ≤ self.now.outgoing.sent }
        ensures exact { (s : Sending) (r : Receiving) → IsSending self.now.outgoing s →
            result ≡ moves.owed_by flags below (state_of (view_of self.now) s r) }
        ensures owed { IsOwed result self.now }
    {
        if flags.choke {
            self.nothing_owed()
        } else if self.choked {
            let from = self.outgoing.acked();
            Owed {
                from,
                many: self.outgoing.sent() - from,
            }
        } else if flags.nak {
            Owed {
                from: below,
                many: (self.outgoing.sent() - below).min(1),
            }
        } else {
            self.nothing_owed()
        }
    }

    /// Whether the other end takes no text for now.
    fn hold(&mut self, choke: bool, now: Millis)
        ensures does { Does (moves.on_state (moves.hold now choke)) self.old self.new }
        ensures adds { Adds 0 self.old self.new }
        ensures outgoing { self.new.outgoing ≡ self.old.outgoing }
    {
        if choke {
            self.choked = true;
            self.answer_due = Some(now.ms() + self.config.busy);
        } else if self.choked {
            self.choked = false;
            self.wait_if_out(now);
        }
    }

    fn emit_owed(&mut self, owed: Owed)
        requires owed { IsOwed owed self.old }
        requires room { length self.old.outs.items + self.old.config.window ≤ 2 * self.old.config.window + 2 }
        ensures does { Does (moves.emit_owed owed) self.old self.new }
        ensures adds { Adds self.old.config.window self.old self.new }
    {
        self.emit_infos(owed.from, owed.many);
    }

    /// Text is answered by what was got, unless text that carries it goes out.
    fn answer(&mut self, nak: bool, owed: Owed)
        requires owed { IsOwed owed self.old }
        requires room { length self.old.outs.items + 1 ≤ 2 * self.old.config.window + 2 }
        ensures does { Does (moves.answer nak owed) self.old self.new }
        ensures adds { Adds 1 self.old self.new }
        ensures rest { view_of self.new ≡ record (view_of self.old) { outs = (view_of self.new).outs } }
    {
        if nak || self.is_silent(owed) {
            self.emit_ack(nak);
        }
    }

    /// Whether no text goes out.
    fn is_silent(&self, owed: Owed) -> bool
        requires { IsOwed owed self.now }
        ensures { (s : Sending) (r : Receiving) → IsSending self.now.outgoing s →
            result ≡ moves.is_silent owed (state_of (view_of self.now) s r) }
    {
        owed.many + self.fill_count() == 0
    }
}
