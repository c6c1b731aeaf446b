//! What a link does when T1 or T3 has come (AX.25 2.2, section 6.7). Called by `link`.
ghost use Rattle.std.specs.Prelude.{◌≡◌, ℕ, ◌+◌, ◌*◌, ◌≤◌, ◌<◌, [], length, None};

use crate::machine::Machine;
use crate::notice::LinkNotice;
use crate::phase::LinkPhase;
use ax_frame::Control;
use radio_base::{Millis, Modulus};

impl<M: Modulus> Machine<M> {
    ghost use Rattle.ax_link.specs.Table as table;
    ghost use Rattle.ax_link.specs.Standing.{Adds, IsDrained};
    ghost use Rattle.ax_link.specs.Calls.{Does, ask_once_more, tell_end, view_of};

    /// Time has passed.
    pub(crate) fn tick(&mut self, now: Millis)
        requires { IsDrained (view_of self.old) }
        ensures does { Does M.SIZE (table.tick now) self.old self.new }
        ensures window { self.new.window ≡ self.old.window }
    {
        if self.t1_runs() {
            if self.t1_at <= now.ms() {
                self.expire(now);
            }
        } else if self.is_up() && self.last_arrival.max(self.t1_stopped_at) + self.t3 <= now.ms() {
            self.start_poll(now);
        }
    }

    /// T1 has come: no answer did.
    fn expire(&mut self, now: Millis)
        requires { IsDrained (view_of self.old) }
        ensures does { Does M.SIZE (table.expire now) self.old self.new }
        ensures window { self.new.window ≡ self.old.window }
    {
        if self.tries == self.retries {
            self.fail(now);
        } else {
            self.retry(now);
        }
    }

    fn fail(&mut self, now: Millis)
        requires { IsDrained (view_of self.old) }
        ensures does { Does M.SIZE (table.fail now) self.old self.new }
        ensures window { self.new.window ≡ self.old.window }
    {
        self.tell_end();
        self.to_phase(LinkPhase::Down, now);
        self.note(LinkNotice::Failed);
    }

    /// The other station is told that an open link ends.
    fn tell_end(&mut self)
        requires { self.old.outs.items ≡ [] }
        ensures does { Does M.SIZE tell_end self.old self.new }
        ensures adds { Adds 1 (view_of self.old) (view_of self.new) }
    {
        match self.phase {
            LinkPhase::Up => self.emit(false, Control::Dm { pf: false }),
            LinkPhase::Down | LinkPhase::SettingUp | LinkPhase::Releasing => {}
        }
    }

    /// The answer is awaited once more.
    fn retry(&mut self, now: Millis)
        requires outs { self.old.outs.items ≡ [] }
        requires tries { self.old.tries < self.old.retries }
        ensures does { Does M.SIZE (table.retry now) self.old self.new }
        ensures window { self.new.window ≡ self.old.window }
    {
        self.tries += 1;
        self.ask_once_more(now);
    }

    fn ask_once_more(&mut self, now: Millis)
        requires outs { self.old.outs.items ≡ [] }
        ensures does { Does M.SIZE (ask_once_more now) self.old self.new }
        ensures window { self.new.window ≡ self.old.window }
    {
        match self.phase {
            LinkPhase::Down => {}
            LinkPhase::SettingUp => {
                let control = self.set_up_command();
                self.emit_timed(control, now);
            }
            LinkPhase::Up => self.start_poll(now),
            LinkPhase::Releasing => self.emit_timed(Control::Disc { pf: true }, now),
        }
    }
}
