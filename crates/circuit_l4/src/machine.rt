//! What an end keeps above its two halves. Called by most files here.
ghost use Rattle.std.specs.Prelude.{◌≡◌, ◌+◌, ◌-◌, ◌*◌, ◌≤◌, ◌<◌, length, drop, slice_get, None, Some};
ghost use Rattle.radio_base.specs.declared.modulus.TheConstants.{COUNT_MAX};
ghost use Rattle.circuit_l4.specs.State.{bytes_of};
ghost use Rattle.circuit_l4.specs.Halves.{IsFew};

use crate::config::EndConfig;
use crate::incoming::Incoming;
use crate::notice::EndNotice;
use crate::outgoing::Outgoing;
use crate::output::{Out, Output};
use crate::pair::Pair;
use crate::phase::EndPhase;
use crate::role::Role;
use circular_buffer::HeapCircularBuffer;
use radio_base::Millis;

/// One end of a circuit. It has its room from the start.
#[derive(Drop)]
pub(crate) struct Machine {
    pub(crate) role: Role,
    pub(crate) pair: Pair,
    /// The other end's pair, once it is known.
    pub(crate) to: Pair,
    pub(crate) config: EndConfig,
    pub(crate) phase: EndPhase,
    pub(crate) window: u8,
    pub(crate) outgoing: Outgoing,
    pub(crate) incoming: Incoming,
    /// The other end takes no text for now.
    pub(crate) choked: bool,
    pub(crate) closing: bool,
    pub(crate) tries: u8,
    /// When an answer is awaited no longer.
    pub(crate) answer_due: Option<u64>,
    /// When it was opened, last written to, or last heard text or an acknowledgement.
    pub(crate) last_active: u64,
    pub(crate) outs: HeapCircularBuffer<Output>,
    pub(crate) notice: Option<EndNotice>,
    ghost acked_is_sent: { outgoing.acked ≤ outgoing.sent },
    ghost sent_is_written: { outgoing.sent ≤ outgoing.total },
    ghost total_fits: { outgoing.total ≤ COUNT_MAX },
    ghost sent_in_window: { outgoing.sent ≤ outgoing.acked + config.window },
    ghost window_fits: { window ≤ config.window },
    ghost own_window_some: { 1 ≤ config.window },
    ghost own_window_fits: { config.window ≤ 127 },
    ghost places: { length incoming.early ≡ config.window },
    ghost queue_fits: { bytes_of outgoing.queue ≤ 65536 },
    ghost few: { IsFew incoming },
    ghost outs_room: { outs.capacity ≡ 2 * config.window + 2 },
    ghost outs_fit: { length outs.items ≤ 2 * config.window + 2 },
    ghost timeout_fits: { config.timeout ≤ COUNT_MAX },
    ghost busy_fits: { config.busy ≤ COUNT_MAX },
    ghost inactive_fits: { config.inactive ≤ COUNT_MAX },
    ghost last_active_fits: { last_active ≤ COUNT_MAX },
    ghost tries_fit: { tries ≤ config.retries },
    ghost retries_fit: { config.retries < 256 },
}

impl Machine {
    ghost use Rattle.circuit_l4.specs.State as state;
    ghost use Rattle.circuit_l4.specs.Moves as moves;
    ghost use Rattle.circuit_l4.specs.Calls.{Adds, Does, emits};
    ghost use Rattle.circuit_l4.specs.Standing.{view_of};

    pub(crate) fn is_up(&self) -> bool
        ensures { result ≡ state.is_up self.now.phase }
    {
        matches!(self.phase, EndPhase::Up)
    }

    /// Something waits to be put out.
    pub(crate) fn emit(&mut self, output: Output)
        requires { length self.old.outs.items < 2 * self.old.config.window + 2 }
        ensures does { Does (emits self.old.outgoing output) self.old self.new }
        ensures adds { Adds 1 self.old self.new }
        ensures rest { view_of self.new ≡ record (view_of self.old) { outs = (view_of self.new).outs } }
    {
        let _ = self.outs.push_back(output);
    }

    /// The next transport that goes out.
    pub(crate) fn next_out(&mut self) -> Option<Out>
        ensures value { result ≡ slice_get (view_of self.old).outs 0 }
        ensures rest { view_of self.new ≡ record (view_of self.old) { outs = drop 1 (view_of self.old).outs } }
    {
        match self.outs.pop_front() {
            Some(output) => Some(output.fetch(&self.outgoing)),
            None => None,
        }
    }

    pub(crate) fn note(&mut self, notice: EndNotice)
        requires { self.old.notice ≡ None }
        ensures does { Does (moves.note notice) self.old self.new }
        ensures outs { self.new.outs ≡ self.old.outs }
        ensures config { self.new.config ≡ self.old.config }
    {
        self.notice = Some(notice);
    }

    pub(crate) fn end(&mut self, notice: EndNotice)
        requires { self.old.notice ≡ None }
        ensures does { Does (moves.end_with notice) self.old self.new }
        ensures outs { self.new.outs ≡ self.old.outs }
        ensures config { self.new.config ≡ self.old.config }
    {
        self.phase = EndPhase::Ended;
        self.note(notice);
    }

    /// An answer is awaited from now on.
    pub(crate) fn wait(&mut self, now: Millis)
        ensures does { Does (moves.on_state (moves.wait now)) self.old self.new }
        ensures rest { view_of self.new
            ≡ record (view_of self.old) { answer_due = Some (now + self.old.config.timeout) } }
        ensures outs { self.new.outs ≡ self.old.outs }
    {
        self.answer_due = Some(now.ms() + self.config.timeout);
    }

    /// An answer is awaited while text is out.
    pub(crate) fn wait_if_out(&mut self, now: Millis)
        ensures does { Does (moves.on_state (moves.wait_if_out now)) self.old self.new }
        ensures adds { Adds 0 self.old self.new }
        ensures rest { view_of self.new ≡ record (view_of self.old) { answer_due = self.new.answer_due } }
    {
        if self.outgoing.acked() < self.outgoing.sent() {
            self.wait(now);
        } else {
            self.answer_due = None;
        }
    }
}
