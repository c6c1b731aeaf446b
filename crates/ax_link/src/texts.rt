//! What a link does with the payload of an I frame (AX.25 2.2, section 6.4.2). Called by `arrivals`.
ghost use Rattle.std.specs.Prelude.{◌≡◌, ℕ, Bool, List, ◌+◌, ◌-◌, ◌*◌, ◌≤◌, ◌<◌, ◌++◌, ◌∷◌, [], ◌&&◌, not, nat_eq, nat_le, length, true, false, None, Some, IfSome};
ghost use Rattle.radio_base.specs.declared.modulus.TheConstants.{COUNT_MAX};

use crate::i_frame::IFrame;
use crate::machine::Machine;
use ax_frame::Control;
use radio_base::{COUNT_MAX, Modulus};

impl<M: Modulus> Machine<M> {
    ghost use Rattle.radio_base.specs.declared.payload.Payload.{Payload};
    ghost use Rattle.ax_link.specs.declared.kind.Kind.TheVariants as Kind;
    ghost use Rattle.ax_link.specs.Kinds.{kind_of};
    ghost use Rattle.ax_link.specs.State as state;
    ghost use Rattle.ax_link.specs.Moves as moves;
    ghost use Rattle.ax_link.specs.Table as table;
    ghost use Rattle.ax_link.specs.Standing.{Adds, state_of};
    ghost use Rattle.ax_link.specs.Calls.{Does, brought, view_of, take_plain, text_next};

    /// A payload has come with this number on the air.
    pub(crate) fn text(&mut self, i_frame: &IFrame<'_>)
        requires room { length self.old.outs.items + self.old.window ≤ 2 * self.old.window + 4 }
        requires size { self.old.window < M.SIZE }
        ensures does { Does M.SIZE (moves.text i_frame.now.pf i_frame.now.ns (brought i_frame.now)) self.old self.new }
        ensures adds { Adds self.old.window (view_of self.old) (view_of self.new) }
    {
        if self.got >= COUNT_MAX {
            return;
        }
        if self.is_busy() {
            let nr = M::wire(self.got);
            self.emit(false, Control::Rnr { nr, pf: i_frame.pf });
        } else if self.srej {
            self.text_in_window(i_frame);
        } else {
            self.text_in_turn(i_frame);
        }
    }

    /// Where single payloads are asked for, each one of the window is taken or kept.
    fn text_in_window(&mut self, i_frame: &IFrame<'_>)
        requires room { length self.old.outs.items + self.old.window ≤ 2 * self.old.window + 4 }
        requires size { self.old.window < M.SIZE }
        requires busy { length self.old.inbox.items < 64 }
        requires more { self.old.got < COUNT_MAX }
        ensures does { Does M.SIZE
            (moves.text_srej i_frame.now.pf i_frame.now.ns (brought i_frame.now)) self.old self.new }
        ensures adds { Adds self.old.window (view_of self.old) (view_of self.new) }
    {
        match self.in_window(i_frame.ns) {
            Some(number) => self.text_at(i_frame, number),
            None => self.emit_rr(i_frame.pf),
        }
    }

    fn text_at(&mut self, i_frame: &IFrame<'_>, number: u64)
        requires room { length self.old.outs.items + self.old.window ≤ 2 * self.old.window + 4 }
        requires busy { length self.old.inbox.items < 64 }
        requires more { self.old.got < COUNT_MAX }
        requires from { self.old.got ≤ number }
        requires below { number < self.old.got + self.old.window }
        ensures does { Does M.SIZE (moves.text_at i_frame.now.pf number (brought i_frame.now)) self.old self.new }
        ensures adds { Adds self.old.window (view_of self.old) (view_of self.new) }
    {
        if self.got < number {
            self.text_later(i_frame, number);
        } else {
            self.text_next(i_frame);
        }
    }

    /// The next payload has come, and early ones follow.
    fn text_next(&mut self, i_frame: &IFrame<'_>)
        requires room { length self.old.outs.items + 1 ≤ 2 * self.old.window + 4 }
        requires busy { length self.old.inbox.items < 64 }
        requires more { self.old.got < COUNT_MAX }
        ensures does { Does M.SIZE (text_next i_frame.now.pf (brought i_frame.now)) self.old self.new }
        ensures adds { Adds 1 (view_of self.old) (view_of self.new) }
    {
        self.take_next(i_frame.pid, i_frame.info);
        self.move_on();
        self.answer_text(i_frame.pf);
    }

    /// Without SREJ: the payload is taken in where it is the next one, and dropped where it isn't.
    fn text_in_turn(&mut self, i_frame: &IFrame<'_>)
        requires room { length self.old.outs.items + 1 ≤ 2 * self.old.window + 4 }
        requires busy { length self.old.inbox.items < 64 }
        requires more { self.old.got < COUNT_MAX }
        ensures does { Does M.SIZE
            (moves.text_plain i_frame.now.pf i_frame.now.ns (brought i_frame.now)) self.old self.new }
        ensures adds { Adds 1 (view_of self.old) (view_of self.new) }
    {
        if i_frame.ns == M::wire(self.got) {
            self.take_in(i_frame);
            self.answer_text(i_frame.pf);
        } else {
            self.ask_again(i_frame.pf);
        }
    }

    fn take_in(&mut self, i_frame: &IFrame<'_>)
        requires busy { length self.old.inbox.items < 64 }
        requires more { self.old.got < COUNT_MAX }
        ensures does { Does M.SIZE (take_plain (brought i_frame.now)) self.old self.new }
        ensures adds { Adds 0 (view_of self.old) (view_of self.new) }
    {
        self.take_next(i_frame.pid, i_frame.info);
        self.rej_sent = false;
    }

    /// Answers a payload that was taken, unless a payload goes out that carries the answer.
    fn answer_text(&mut self, pf: bool)
        requires { length self.old.outs.items + 1 ≤ 2 * self.old.window + 4 }
        ensures does { Does M.SIZE (moves.answer_text pf) self.old self.new }
        ensures adds { Adds 1 (view_of self.old) (view_of self.new) }
    {
        if pf || self.is_busy() || self.fill_count() == 0 {
            self.emit_rr(pf);
        }
    }

    /// A payload has come that isn't the next one: the next one is asked for, once.
    fn ask_again(&mut self, pf: bool)
        requires { length self.old.outs.items + 1 ≤ 2 * self.old.window + 4 }
        ensures does { Does M.SIZE (moves.ask_again pf) self.old self.new }
        ensures adds { Adds 1 (view_of self.old) (view_of self.new) }
    {
        if !self.rej_sent {
            self.ask(pf);
        } else {
            self.answer_poll(pf);
        }
    }

    fn ask(&mut self, pf: bool)
        requires { length self.old.outs.items + 1 ≤ 2 * self.old.window + 4 }
        ensures does { Does M.SIZE (moves.ask pf) self.old self.new }
        ensures adds { Adds 1 (view_of self.old) (view_of self.new) }
    {
        self.rej_sent = true;
        let nr = M::wire(self.got);
        self.emit(false, Control::Rej { nr, pf });
    }
}
