//! What a link does with a frame of the other station (AX.25 2.2, sections 6.3 and 6.4). Called by `link`.
ghost use Rattle.std.specs.Prelude.{◌≡◌, ℕ, Bool, List, ◌+◌, ◌-◌, ◌*◌, ◌≤◌, ◌<◌, ◌++◌, ◌∷◌, [], ◌&&◌, not, nat_eq, nat_le, length, true, false, None, Some, IfSome};

use crate::frame_in::FrameIn;
use crate::i_frame::IFrame;
use crate::kind::Kind;
use crate::machine::Machine;
use crate::notice::LinkNotice;
use crate::phase::LinkPhase;
use crate::supervisory::Supervisory;
use ax_frame::Control;
use radio_base::{Millis, Modulus};

impl<M: Modulus> Machine<M> {
    ghost use Rattle.radio_base.specs.declared.payload.Payload.{Payload};
    ghost use Rattle.ax_link.specs.declared.kind.Kind.TheVariants as Kind;
    ghost use Rattle.radio_base.specs.Modulus.{place_of};
    ghost use Rattle.ax_link.specs.State as state;
    ghost use Rattle.ax_link.specs.Moves as moves;
    ghost use Rattle.ax_link.specs.Table as table;
    ghost use Rattle.ax_link.specs.Standing.{Adds, IsDrained, state_of};
    ghost use Rattle.ax_link.specs.Calls.{Does, arrive, brought, frame_come, view_of, text_again};

    pub(crate) fn arrive(&mut self, frame: &FrameIn<'_>, now: Millis)
        requires drained { IsDrained (view_of self.old) }
        requires size { self.old.window < M.SIZE }
        ensures does { Does M.SIZE (arrive now (frame_come frame.now)) self.old self.new }
        ensures window { self.new.window ≡ self.old.window }
    {
        self.last_arrival = now.ms();
        match self.phase {
            LinkPhase::Down => self.arrive_down(frame.command, frame.kind, now),
            LinkPhase::SettingUp => self.arrive_setting_up(frame.kind, now),
            LinkPhase::Up => self.arrive_up(frame, now),
            LinkPhase::Releasing => self.arrive_releasing(frame.kind, now),
        }
    }

    fn arrive_down(&mut self, command: bool, kind: Kind, now: Millis)
        requires { IsDrained (view_of self.old) }
        ensures does { Does M.SIZE (table.arrive_down now command kind) self.old self.new }
        ensures window { self.new.window ≡ self.old.window }
    {
        match kind {
            Kind::SetUp { pf } => {
                self.reset(now);
                self.to_phase(LinkPhase::Up, now);
                self.emit(false, Control::Ua { pf });
                self.note(LinkNotice::Opened);
            }
            Kind::Disc { pf } | Kind::Xid { pf } => self.refuse_if(command, pf),
            Kind::I { pf, .. }
            | Kind::Rr { pf, .. }
            | Kind::Rnr { pf, .. }
            | Kind::Rej { pf, .. }
            | Kind::Srej { pf, .. } => self.refuse_if(command && pf, true),
            _ => {}
        }
    }

    fn refuse_if(&mut self, polled: bool, pf: bool)
        requires { length self.old.outs.items + 1 ≤ 2 * self.old.window + 4 }
        ensures does { Does M.SIZE (table.refuse_if polled pf) self.old self.new }
        ensures window { self.new.window ≡ self.old.window }
    {
        if polled {
            self.emit(false, Control::Dm { pf });
        }
    }

    fn arrive_setting_up(&mut self, kind: Kind, now: Millis)
        requires { IsDrained (view_of self.old) }
        ensures does { Does M.SIZE (table.arrive_setting_up now kind) self.old self.new }
        ensures window { self.new.window ≡ self.old.window }
    {
        match kind {
            Kind::Ua { pf: true } => {
                self.to_phase(LinkPhase::Up, now);
                self.note(LinkNotice::Opened);
                self.fill_and_finish(now);
            }
            Kind::Dm { pf: true } => {
                self.to_phase(LinkPhase::Down, now);
                self.note(LinkNotice::Refused);
            }
            Kind::SetUp { pf } => self.emit(false, Control::Ua { pf }),
            Kind::Disc { pf } => self.emit(false, Control::Dm { pf }),
            _ => {}
        }
    }

    fn arrive_up(&mut self, frame: &FrameIn<'_>, now: Millis)
        requires drained { IsDrained (view_of self.old) }
        requires size { self.old.window < M.SIZE }
        ensures does { Does M.SIZE
            (table.arrive_up now frame.now.command frame.now.kind (frame_come frame.now).payload) self.old self.new }
        ensures window { self.new.window ≡ self.old.window }
    {
        match frame.kind {
            Kind::I { ns, nr, pf } => {
                if let Some(i_frame) = frame.brings(ns, pf) {
                    self.on_i(&i_frame, nr, now);
                }
            }
            Kind::Rr { nr, pf } => self.on_supervisory(frame.ready(pf), nr, now),
            Kind::Rnr { nr, pf } => self.on_supervisory(frame.not_ready(pf), nr, now),
            Kind::Rej { nr, pf } => self.on_supervisory(frame.reject(pf), nr, now),
            Kind::Srej { nr, pf } => self.on_selective_reject(pf, nr, now),
            Kind::SetUp { pf } => {
                self.reset(now);
                self.emit(false, Control::Ua { pf });
                self.note(LinkNotice::Reset);
            }
            Kind::Disc { pf } => {
                self.emit(false, Control::Ua { pf });
                self.to_phase(LinkPhase::Down, now);
                self.note(LinkNotice::Closed);
            }
            Kind::Dm { .. } => {
                self.to_phase(LinkPhase::Down, now);
                self.note(LinkNotice::Closed);
            }
            Kind::Frmr { .. } => {
                self.reset(now);
                self.note(LinkNotice::Reset);
                self.to_phase(LinkPhase::SettingUp, now);
                let control = self.set_up_command();
                self.emit_timed(control, now);
            }
            _ => {}
        }
    }

    fn arrive_releasing(&mut self, kind: Kind, now: Millis)
        requires { IsDrained (view_of self.old) }
        ensures does { Does M.SIZE (table.arrive_releasing now kind) self.old self.new }
        ensures window { self.new.window ≡ self.old.window }
    {
        match kind {
            Kind::Ua { pf: true } | Kind::Dm { pf: true } => {
                self.to_phase(LinkPhase::Down, now);
                self.note(LinkNotice::Closed);
            }
            Kind::Disc { pf } => self.emit(false, Control::Ua { pf }),
            Kind::SetUp { pf } | Kind::OtherSetUp { pf } => self.emit(false, Control::Dm { pf }),
            _ => {}
        }
    }

    /// Where an acknowledgement stands among what was put out.
    fn ack_place(&self, nr: u8) -> Option<u64>
        requires { self.now.window < M.SIZE }
        ensures exact { (before received : List Payload)
            → result ≡ state.ack_place (state_of M.SIZE (view_of self.now) before received) nr }
        ensures bounds { IfSome result (λ below. (self.now.acked ≤ below) × (below ≤ self.now.sent)) }
    {
        if (nr as u64) < M::SIZE {
            M::place(nr, self.acked, self.sent - self.acked + 1)
        } else {
            None
        }
    }

    /// An RR, RNR or REJ, with this N(R).
    fn on_supervisory(&mut self, said: Supervisory, nr: u8, now: Millis)
        requires outs { self.old.outs.items ≡ [] }
        requires size { self.old.window < M.SIZE }
        ensures does { Does M.SIZE
            (moves.on_supervisory now said.command said.busy said.reject said.pf nr) self.old self.new }
        ensures notice { self.new.notice ≡ self.old.notice }
        ensures window { self.new.window ≡ self.old.window }
    {
        if let Some(below) = self.ack_place(nr) {
            self.supervisory_at(said, below, now);
        }
    }

    fn supervisory_at(&mut self, said: Supervisory, below: u64, now: Millis)
        requires outs { self.old.outs.items ≡ [] }
        requires from { self.old.acked ≤ below }
        requires to { below ≤ self.old.sent }
        ensures does { Does M.SIZE
            (moves.supervisory_at now said.command said.busy said.reject said.pf below) self.old self.new }
        ensures notice { self.new.notice ≡ self.old.notice }
        ensures window { self.new.window ≡ self.old.window }
    {
        self.acknowledge(below, now);
        self.hold(said.busy, now);
        self.answer_poll(said.polls());
        self.supply_again(said, now);
        self.fill_and_finish(now);
    }

    /// What a response with the final bit or a REJ asks for is put out again.
    fn supply_again(&mut self, said: Supervisory, now: Millis)
        requires room { length self.old.outs.items + self.old.window ≤ 2 * self.old.window + 4 }
        ensures does { Does M.SIZE
            (moves.supply_again now (not said.command && said.pf) said.reject) self.old self.new }
        ensures adds { Adds self.old.window (view_of self.old) (view_of self.new) }
    {
        if said.is_final() && self.polling {
            self.end_poll(now);
            self.again(now);
        } else if said.reject && !self.polling {
            self.again(now);
        }
    }

    /// An SREJ asks for one payload. With the final bit it acknowledges all below, and ends a poll.
    fn on_selective_reject(&mut self, last: bool, nr: u8, now: Millis)
        requires outs { self.old.outs.items ≡ [] }
        requires size { self.old.window < M.SIZE }
        ensures does { Does M.SIZE (moves.on_srej now last nr) self.old self.new }
        ensures notice { self.new.notice ≡ self.old.notice }
        ensures window { self.new.window ≡ self.old.window }
    {
        if last {
            self.on_last_selective_reject(nr, now);
        } else {
            self.on_plain_selective_reject(nr);
        }
    }

    fn on_last_selective_reject(&mut self, nr: u8, now: Millis)
        requires outs { self.old.outs.items ≡ [] }
        requires size { self.old.window < M.SIZE }
        ensures does { Does M.SIZE (moves.on_srej now true nr) self.old self.new }
        ensures notice { self.new.notice ≡ self.old.notice }
        ensures window { self.new.window ≡ self.old.window }
    {
        if let Some(below) = self.ack_place(nr) {
            self.srej_at(below, now);
        }
    }

    fn on_plain_selective_reject(&mut self, nr: u8)
        requires outs { self.old.outs.items ≡ [] }
        requires size { self.old.window < M.SIZE }
        ensures does { (now : ℕ) → Does M.SIZE (moves.on_srej now false nr) self.old self.new }
        ensures notice { self.new.notice ≡ self.old.notice }
        ensures window { self.new.window ≡ self.old.window }
    {
        if let Some(number) = self.asked_for_by(nr) {
            self.emit_texts(number, 1);
        }
    }

    /// Which payload of those that aren't acknowledged is asked for.
    fn asked_for_by(&self, nr: u8) -> Option<u64>
        requires { self.now.window < M.SIZE }
        ensures exact { result ≡ place_of M.SIZE nr self.now.acked (self.now.sent - self.now.acked) }
        ensures bounds { IfSome result (λ number. (self.now.acked ≤ number) × (number < self.now.sent)) }
    {
        if (nr as u64) < M::SIZE {
            M::place(nr, self.acked, self.sent - self.acked)
        } else {
            None
        }
    }

    fn srej_at(&mut self, below: u64, now: Millis)
        requires outs { self.old.outs.items ≡ [] }
        requires from { self.old.acked ≤ below }
        requires to { below ≤ self.old.sent }
        ensures does { Does M.SIZE (moves.srej_at now below) self.old self.new }
        ensures notice { self.new.notice ≡ self.old.notice }
        ensures window { self.new.window ≡ self.old.window }
    {
        self.acknowledge(below, now);
        self.end_poll(now);
        self.text_again(below);
        self.fill_and_finish(now);
    }

    /// Puts out the payload of this number again, where it was put out.
    fn text_again(&mut self, number: u64)
        requires room { length self.old.outs.items + 1 ≤ 2 * self.old.window + 4 }
        requires from { self.old.acked ≤ number }
        requires to { number ≤ self.old.sent }
        ensures does { Does M.SIZE (text_again number) self.old self.new }
        ensures adds { Adds 1 (view_of self.old) (view_of self.new) }
    {
        self.emit_texts(number, (self.sent - number).min(1));
    }

    /// An I frame with a payload, and with this N(R).
    fn on_i(&mut self, i_frame: &IFrame<'_>, nr: u8, now: Millis)
        requires outs { self.old.outs.items ≡ [] }
        requires size { self.old.window < M.SIZE }
        ensures does { Does M.SIZE
            (moves.on_i now i_frame.now.pf i_frame.now.ns nr (Some (brought i_frame.now))) self.old self.new }
        ensures notice { self.new.notice ≡ self.old.notice }
        ensures window { self.new.window ≡ self.old.window }
    {
        if let Some(below) = self.ack_place(nr) {
            self.i_at(i_frame, below, now);
        }
    }

    fn i_at(&mut self, i_frame: &IFrame<'_>, below: u64, now: Millis)
        requires outs { self.old.outs.items ≡ [] }
        requires size { self.old.window < M.SIZE }
        requires from { self.old.acked ≤ below }
        requires to { below ≤ self.old.sent }
        ensures does { Does M.SIZE
            (moves.i_at now i_frame.now.pf i_frame.now.ns (brought i_frame.now) below) self.old self.new }
        ensures notice { self.new.notice ≡ self.old.notice }
        ensures window { self.new.window ≡ self.old.window }
    {
        self.acknowledge(below, now);
        self.text(i_frame);
        self.fill_and_finish(now);
    }
}
