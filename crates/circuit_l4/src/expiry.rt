//! What an end does when time has passed. Called by `end`.
ghost use Rattle.std.specs.Prelude.{◌≡◌, ◌+◌, ◌*◌, ◌≤◌, ◌<◌, [], length, None};

use crate::machine::Machine;
use crate::notice::EndNotice;
use crate::output::Output;
use crate::phase::EndPhase;
use crate::role::Role;
use radio_base::Millis;

impl Machine {
    ghost use Rattle.circuit_l4.specs.Table as table;
    ghost use Rattle.circuit_l4.specs.Calls.{Adds, Does, IsIdle, request_by};
    ghost use Rattle.circuit_l4.specs.Standing.{view_of};
    ghost use Rattle.circuit_l4.specs.Table.{ask, ask_once_more, fall_due, fall_due_up};

    /// Time has passed.
    pub(crate) fn tick(&mut self, now: Millis)
        requires { IsIdle self.old }
        ensures does { Does (table.tick now) self.old self.new }
        ensures config { self.new.config ≡ self.old.config }
    {
        if self.is_up() && self.last_active + self.config.inactive <= now.ms() {
            self.end(EndNotice::FailedInactive);
        } else if self.is_due(now) {
            self.fall_due(now);
        }
    }

    fn is_due(&self, now: Millis) -> bool
        ensures { result ≡ table.is_due self.now.answer_due now }
    {
        match self.answer_due {
            Some(at) => at <= now.ms(),
            None => false,
        }
    }

    fn fall_due(&mut self, now: Millis)
        requires { IsIdle self.old }
        ensures does { Does (fall_due now) self.old self.new }
        ensures config { self.new.config ≡ self.old.config }
    {
        match self.phase {
            EndPhase::Connecting | EndPhase::Closing => self.expire(now),
            EndPhase::Up => self.fall_due_up(now),
            EndPhase::Ended => {}
        }
    }

    fn fall_due_up(&mut self, now: Millis)
        requires { IsIdle self.old }
        ensures does { Does (fall_due_up now) self.old self.new }
        ensures config { self.new.config ≡ self.old.config }
    {
        if self.choked {
            self.unchoke(now);
        } else {
            self.expire(now);
        }
    }

    /// An end that was held long enough goes on.
    fn unchoke(&mut self, now: Millis)
        requires outs { self.old.outs.items ≡ [] }
        ensures does { Does (table.unchoke now) self.old self.new }
        ensures config { self.new.config ≡ self.old.config }
    {
        self.choked = false;
        self.answer_due = None;
        self.again();
        self.fill(now);
        self.wait_if_out(now);
    }

    /// An answer hasn't come: it is awaited once more, or no longer.
    fn expire(&mut self, now: Millis)
        requires { IsIdle self.old }
        ensures does { Does (table.expire now) self.old self.new }
        ensures config { self.new.config ≡ self.old.config }
    {
        if self.tries == self.config.retries {
            self.end(EndNotice::FailedRetries);
        } else {
            self.retry(now);
        }
    }

    fn retry(&mut self, now: Millis)
        requires outs { self.old.outs.items ≡ [] }
        requires tries { self.old.tries < self.old.config.retries }
        ensures does { Does (table.retry now) self.old self.new }
        ensures config { self.new.config ≡ self.old.config }
    {
        self.ask_once_more();
        self.tries += 1;
        self.wait(now);
    }

    fn ask_once_more(&mut self)
        requires { self.old.outs.items ≡ [] }
        ensures does { Does ask_once_more self.old self.new }
        ensures adds { Adds (self.old.config.window + 1) self.old self.new }
        ensures tries { self.new.tries ≡ self.old.tries }
    {
        match self.phase {
            EndPhase::Connecting => self.ask(),
            EndPhase::Up => self.again(),
            EndPhase::Closing => self.emit(Output::Disconnect { to: self.to }),
            EndPhase::Ended => {}
        }
    }

    /// What asks the other end for a circuit; a responder has no such thing.
    fn request(&self) -> Option<Output>
        ensures { result ≡ request_by self.now.role self.now.pair self.now.config.window }
    {
        match &self.role {
            Role::Requester { user, node } => Some(Output::Request {
                pair: self.pair,
                window: self.config.window,
                user: *user,
                node: *node,
            }),
            Role::Responder => None,
        }
    }

    /// Asks the other end for a circuit.
    pub(crate) fn ask(&mut self)
        requires { length self.old.outs.items < 2 * self.old.config.window + 2 }
        ensures does { Does ask self.old self.new }
        ensures adds { Adds 1 self.old self.new }
        ensures rest { view_of self.new ≡ record (view_of self.old) { outs = (view_of self.new).outs } }
    {
        if let Some(request) = self.request() {
            self.emit(request);
        }
    }
}
