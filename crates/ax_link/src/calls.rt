//! What a link does for its user: set-up, sending, closing, taking. Called by `link`.
ghost use Rattle.std.specs.Prelude.{◌≡◌, ℕ, List, ◌+◌, ◌*◌, ◌≤◌, ◌<◌, ◌&&◌, [], nat_le, length, slice_get, false, None, OnOk, OnErr, IfOk};
ghost use Rattle.radio_base.specs.declared.modulus.TheConstants.{COUNT_MAX};
ghost use Rattle.ax_link.specs.Standing.{IsDrained};
ghost use Rattle.ax_link.specs.Opening.{opening, rules_new, window_used};

use crate::config::LinkConfig;
use crate::early::empty;
use crate::machine::{INBOX, Machine, QUEUE, push};
use crate::moves::copy_of;
use crate::phase::LinkPhase;
use crate::refusal::SendRefusal;
use circular_buffer::HeapCircularBuffer;
use radio_base::{COUNT_MAX, Millis, Modulus, NoMemory, Payload};
use std::alloc::Global;
use std::marker::PhantomData;

/// The window that is used.
fn window_of<M: Modulus>(config: LinkConfig) -> u8
    ensures value { result ≡ window_used M.SIZE config.srej config.window }
    ensures some { 0 < result }
    ensures most { result ≤ 127 }
{
    let (default, most) = match (M::SIZE == 8, config.srej) {
        (true, false) => (4, 7),
        (true, true) => (4, 4),
        (false, false) => (32, 127),
        (false, true) => (32, 64),
    };
    if config.window == 0 {
        default
    } else {
        config.window.min(most)
    }
}

impl<M: Modulus> Machine<M> {
    ghost use Rattle.ax_link.specs.State as state;
    ghost use Rattle.ax_link.specs.Moves as moves;
    ghost use Rattle.ax_link.specs.Table as table;
    ghost use Rattle.ax_link.specs.Opening.{send_answer};
    ghost use Rattle.ax_link.specs.Standing.{Adds, Keeps};
    ghost use Rattle.ax_link.specs.Calls.{Does, set_up, close, view_of, enqueue};

    pub(crate) fn new(alloc: Global, config: LinkConfig) -> Result<Machine<M>, NoMemory>
        requires t1 { config.t1 ≤ COUNT_MAX }
        requires t3 { config.t3 ≤ COUNT_MAX }
        ensures opening { IfOk result (λ st. Keeps M.SIZE (view_of st) (opening (rules_new M.SIZE config))) }
        ensures drained { IfOk result (λ st. IsDrained (view_of st)) }
        ensures window { IfOk result (λ st. st.window ≡ window_used M.SIZE config.srej config.window) }
    {
        let window = window_of::<M>(config);
        let queue = HeapCircularBuffer::with_capacity(alloc, QUEUE)?;
        let inbox = HeapCircularBuffer::with_capacity(alloc, INBOX)?;
        let outs = HeapCircularBuffer::with_capacity(alloc, 2 * window as usize + 4)?;
        let early_room = if config.srej { window as usize } else { 0 };
        let mut early = HeapCircularBuffer::with_capacity(alloc, early_room)?;
        empty(&mut early);
        Ok(Machine {
            window: window as u64,
            t1: config.t1,
            t3: config.t3,
            retries: config.retries,
            srej: config.srej,
            phase: LinkPhase::Down,
            queue,
            acked: 0,
            sent: 0,
            got: 0,
            early,
            inbox,
            tries: 0,
            polling: false,
            peer_busy: false,
            rej_sent: false,
            closing: false,
            t1_at: 0,
            last_arrival: 0,
            t1_stopped_at: 0,
            outs,
            notice: None,
            modulus: PhantomData,
        })
    }

    pub(crate) fn set_up(&mut self, now: Millis)
        requires outs { self.old.outs.items ≡ [] }
        ensures does { Does M.SIZE (set_up now) self.old self.new }
        ensures window { self.new.window ≡ self.old.window }
    {
        if matches!(self.phase, LinkPhase::Down) {
            self.reset(now);
            self.to_phase(LinkPhase::SettingUp, now);
            let control = self.set_up_command();
            self.emit_timed(control, now);
        }
    }

    pub(crate) fn send(&mut self, payload: &Payload, now: Millis) -> Result<(), SendRefusal>
        requires outs { self.old.outs.items ≡ [] }
        ensures answer { result ≡ send_answer (view_of self.old) }
        ensures does { OnOk result (Does M.SIZE (table.accept now payload.now) self.old self.new) }
        ensures small { OnOk result (length payload.now.info.items ≤ 256) }
        ensures err { OnErr result (view_of self.new ≡ view_of self.old) }
        ensures window { self.new.window ≡ self.old.window }
    {
        if !self.may_close() || self.closing {
            return Err(SendRefusal::NotUp);
        }
        if self.queue.len() >= QUEUE {
            return Err(SendRefusal::QueueFull);
        }
        if self.acked + self.queue.len() as u64 >= COUNT_MAX {
            return Err(SendRefusal::Exhausted);
        }
        self.accept(payload, now);
        Ok(())
    }

    fn accept(&mut self, payload: &Payload, now: Millis)
        requires outs { self.old.outs.items ≡ [] }
        requires room { length self.old.queue.items < 128 }
        requires numbers { self.old.acked + length self.old.queue.items < COUNT_MAX }
        ensures does { Does M.SIZE (table.accept now payload.now) self.old self.new }
        ensures small { length payload.now.info.items ≤ 256 }
        ensures window { self.new.window ≡ self.old.window }
    {
        self.enqueue(payload);
        self.fill(now);
    }

    fn enqueue(&mut self, payload: &Payload)
        requires room { length self.old.queue.items < 128 }
        requires numbers { self.old.acked + length self.old.queue.items < COUNT_MAX }
        ensures does { Does M.SIZE (enqueue payload.now) self.old self.new }
        ensures small { length payload.now.info.items ≤ 256 }
        ensures adds { Adds 0 (view_of self.old) (view_of self.new) }
    {
        push(&mut self.queue, copy_of(payload));
    }

    fn may_close(&self) -> bool
        ensures { result ≡ table.may_close self.now.phase }
    {
        matches!(self.phase, LinkPhase::SettingUp | LinkPhase::Up)
    }

    pub(crate) fn close(&mut self, now: Millis)
        requires outs { self.old.outs.items ≡ [] }
        ensures does { Does M.SIZE (close now) self.old self.new }
        ensures window { self.new.window ≡ self.old.window }
    {
        if self.may_close() {
            self.close_in_turn(now);
        }
    }

    fn close_in_turn(&mut self, now: Millis)
        requires outs { self.old.outs.items ≡ [] }
        ensures does { Does M.SIZE (table.close_in_turn now) self.old self.new }
        ensures window { self.new.window ≡ self.old.window }
    {
        self.closing = true;
        self.finish(now);
    }

    #[inline(always)]
    pub(crate) fn take(&mut self) -> Option<Payload>
        requires outs { self.old.outs.items ≡ [] }
        ensures does { Does M.SIZE table.take_first self.old self.new }
        ensures payload { result ≡ slice_get self.old.inbox.items 0 }
        ensures window { self.new.window ≡ self.old.window }
    {
        let busy = self.is_up_and_busy();
        let payload = self.inbox.pop_front();
        if busy {
            self.resume();
        }
        payload
    }

    /// The end was busy: early payloads follow, and the other station is told.
    fn resume(&mut self)
        requires { length self.old.outs.items + 1 ≤ 2 * self.old.window + 4 }
        ensures does { Does M.SIZE moves.resume self.old self.new }
        ensures adds { Adds 1 (view_of self.old) (view_of self.new) }
    {
        self.move_on();
        self.emit_rr(false);
    }

    fn is_up_and_busy(&self) -> bool
        ensures { result ≡ (state.is_up self.now.phase && nat_le 64 (length self.now.inbox.items)) }
    {
        self.is_up() && self.is_busy()
    }
}
