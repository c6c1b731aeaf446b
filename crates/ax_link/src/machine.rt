//! What one end of a link keeps. Called by most files here.
ghost use Rattle.std.specs.Prelude.{◌≡◌, ℕ, Bool, List, ◌+◌, ◌*◌, ◌≤◌, ◌<◌, ◌++◌, ◌∷◌, [], nat_le, if◌then◌else◌, length, true, false, None, Some};
ghost use Rattle.circular_buffer.specs.Buffer.{buffer};
ghost use Rattle.radio_base.specs.declared.modulus.TheConstants.{COUNT_MAX};

use crate::early::{Places, empty};
use crate::notice::LinkNotice;
use crate::out::LinkOut;
use crate::phase::LinkPhase;
use ax_frame::Control;
use circular_buffer::HeapCircularBuffer;
use radio_base::{Millis, Modulus, Payload};
use std::marker::PhantomData;

/// How many payloads wait at most for the other station.
pub(crate) const QUEUE: usize = 128;
/// How many payloads wait at most to be taken. A link that has so many is busy.
pub(crate) const INBOX: usize = 64;

/// One end of a link. All rings have their room from the start.
#[derive(Drop)]
pub(crate) struct Machine<M> {
    /// k: how many payloads may be under way.
    pub(crate) window: u64,
    pub(crate) t1: u64,
    pub(crate) t3: u64,
    /// N2: how many expiries in a row are answered by asking again.
    pub(crate) retries: u8,
    pub(crate) srej: bool,
    pub(crate) phase: LinkPhase,
    /// What was accepted and isn't acknowledged.
    pub(crate) queue: HeapCircularBuffer<Payload>,
    /// V(A), V(S) and V(R), as whole counts: how many payloads are acknowledged, were put out, and were got in their turn.
    pub(crate) acked: u64,
    pub(crate) sent: u64,
    pub(crate) got: u64,
    /// What came before its turn, where SREJ is used.
    pub(crate) early: Places,
    pub(crate) inbox: HeapCircularBuffer<Payload>,
    /// RC: how many expiries have gone without an answer so far.
    pub(crate) tries: u8,
    /// Whether a poll isn't answered yet (timer recovery).
    pub(crate) polling: bool,
    pub(crate) peer_busy: bool,
    /// Whether a REJ isn't answered yet (reject exception).
    pub(crate) rej_sent: bool,
    pub(crate) closing: bool,
    pub(crate) t1_at: u64,
    pub(crate) last_arrival: u64,
    pub(crate) t1_stopped_at: u64,
    pub(crate) outs: HeapCircularBuffer<LinkOut>,
    pub(crate) notice: Option<LinkNotice>,
    pub(crate) modulus: PhantomData<M>,
    ghost queue_room: { queue.capacity ≡ 128 },
    ghost queue_fits: { length queue.items ≤ 128 },
    ghost numbers: { acked + length queue.items ≤ COUNT_MAX },
    ghost in_order: { acked ≤ sent },
    ghost sent_is_given: { sent ≤ acked + length queue.items },
    ghost sent_in_window: { sent ≤ acked + window },
    ghost window_some: { 0 < window },
    ghost window_fits: { window < 128 },
    ghost got_fits: { got ≤ COUNT_MAX },
    ghost early_room: { early.capacity ≡ (if srej then window else 0) },
    ghost early_places: { length early.items ≡ early.capacity },
    ghost inbox_room: { inbox.capacity ≡ 64 },
    ghost inbox_fits: { length inbox.items ≤ 64 },
    ghost inbox_was_got: { length inbox.items ≤ got },
    ghost outs_room: { outs.capacity ≡ 2 * window + 4 },
    ghost t1_fits: { t1 ≤ COUNT_MAX },
    ghost t3_fits: { t3 ≤ COUNT_MAX },
    ghost heard_fits: { last_arrival ≤ COUNT_MAX },
    ghost stopped_fits: { t1_stopped_at ≤ COUNT_MAX },
    ghost tries_fit: { tries ≤ retries },
}

/// Appends an item to a ring that has room for it.
pub(crate) fn push<T: Drop>(ring: &mut HeapCircularBuffer<T>, item: T)
    requires { length ring.old.items < ring.old.capacity }
    ensures { ring.new ≡ buffer (ring.old.items ++ item ∷ []) ring.old.capacity }
{
    let _ = ring.push_back(item);
}

impl<M: Modulus> Machine<M> {
    ghost use Rattle.radio_base.specs.declared.payload.Payload.{Payload};
    ghost use Rattle.ax_link.specs.declared.kind.Kind.TheVariants as Kind;
    ghost use Rattle.ax_link.specs.Kinds.{kind_of};
    ghost use Rattle.ax_link.specs.State.{is_up};
    ghost use Rattle.ax_link.specs.Moves as moves;
    ghost use Rattle.ax_link.specs.Standing.{Adds, runs, state_of};
    ghost use Rattle.ax_link.specs.Calls.{Does, view_of, view_with_t1};

    pub(crate) fn is_busy(&self) -> bool
        ensures { result ≡ nat_le 64 (length self.now.inbox.items) }
    {
        self.inbox.len() >= INBOX
    }

    pub(crate) fn is_up(&self) -> bool
        ensures { result ≡ is_up self.now.phase }
    {
        matches!(self.phase, LinkPhase::Up)
    }

    pub(crate) fn t1_runs(&self) -> bool
        ensures { result ≡ runs (view_of self.now) }
    {
        match self.phase {
            LinkPhase::Down => false,
            LinkPhase::SettingUp | LinkPhase::Releasing => true,
            LinkPhase::Up => self.acked < self.sent || self.polling || self.peer_busy,
        }
    }

    /// RR, or RNR where the link is busy.
    pub(crate) fn ready(&self, pf: bool) -> Control
        ensures { (before received : List Payload) → length received ≡ self.now.got → (command : Bool) →
            kind_of M.SIZE command result ≡ moves.rr (state_of M.SIZE (view_of self.now) before received) pf }
    {
        let nr = M::wire(self.got);
        if self.is_busy() {
            Control::Rnr { nr, pf }
        } else {
            Control::Rr { nr, pf }
        }
    }

    /// The set-up command of the modulus.
    pub(crate) fn set_up_command(&self) -> Control
        ensures { kind_of M.SIZE true result ≡ Kind.SetUp true }
    {
        if M::SIZE == 8 {
            Control::Sabm { pf: true }
        } else {
            Control::Sabme { pf: true }
        }
    }

    /// After a change: T1 begins to run, or has stopped. `ran` is whether it ran before.
    pub(crate) fn update_t1(&mut self, ran: bool, now: Millis)
        ensures { view_of self.new ≡ view_with_t1 now ran (view_of self.old) }
    {
        let runs = self.t1_runs();
        if !ran && runs {
            self.t1_at = now.ms() + self.t1;
        }
        if ran && !runs {
            self.t1_stopped_at = now.ms();
        }
    }

    pub(crate) fn emit(&mut self, command: bool, control: Control)
        requires { length self.old.outs.items < 2 * self.old.window + 4 }
        ensures does { Does M.SIZE (moves.emit command (kind_of M.SIZE command control)) self.old self.new }
        ensures adds { Adds 1 (view_of self.old) (view_of self.new) }
        ensures got { self.new.got ≡ self.old.got }
    {
        let out = LinkOut {
            command,
            control,
            payload: None,
        };
        push(&mut self.outs, out);
    }

    /// Puts out a frame whose answer T1 awaits.
    pub(crate) fn emit_timed(&mut self, control: Control, now: Millis)
        requires room { length self.old.outs.items < 2 * self.old.window + 4 }
        ensures does { Does M.SIZE (moves.emit_timed now true (kind_of M.SIZE true control)) self.old self.new }
        ensures adds { Adds 1 (view_of self.old) (view_of self.new) }
    {
        self.emit(true, control);
        self.t1_at = now.ms() + self.t1;
    }

    pub(crate) fn to_phase(&mut self, phase: LinkPhase, now: Millis)
        ensures does { Does M.SIZE (moves.to_phase now phase) self.old self.new }
        ensures adds { Adds 0 (view_of self.old) (view_of self.new) }
    {
        let ran = self.t1_runs();
        self.phase = phase;
        self.update_t1(ran, now);
    }

    pub(crate) fn note(&mut self, notice: LinkNotice)
        requires { self.old.notice ≡ None }
        ensures does { Does M.SIZE (moves.note notice) self.old self.new }
        ensures window { self.new.window ≡ self.old.window }
        ensures outs { self.new.outs ≡ self.old.outs }
    {
        self.notice = Some(notice);
    }

    /// Forgets all that was under way. `closing` stays.
    pub(crate) fn reset(&mut self, now: Millis)
        ensures does { Does M.SIZE (moves.reset now) self.old self.new }
        ensures adds { Adds 0 (view_of self.old) (view_of self.new) }
    {
        let ran = self.t1_runs();
        self.queue.clear();
        empty(&mut self.early);
        self.inbox.clear();
        self.acked = 0;
        self.sent = 0;
        self.got = 0;
        self.tries = 0;
        self.polling = false;
        self.peer_busy = false;
        self.rej_sent = false;
        self.update_t1(ran, now);
    }
}
