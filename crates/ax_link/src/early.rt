//! Payloads that came before their turn (AX.25 2.2, section 6.4.4.2). Called by `calls`, `machine` and `texts`.
ghost use Rattle.std.specs.Prelude.{◌≡◌, ℕ, List, ◌+◌, ◌-◌, ◌*◌, ◌%◌, ◌≤◌, ◌<◌, ◌++◌, ◌∷◌, [], length, replicate, slice_get, false, None, IfSome};
ghost use Rattle.circular_buffer.specs.Buffer.{buffer, keep_last};
ghost use Rattle.radio_base.specs.declared.modulus.TheConstants.{COUNT_MAX};
ghost use Rattle.ax_link.specs.Kinds.{payload};
ghost use Rattle.ax_link.specs.State as state;
ghost use Rattle.ax_link.specs.Calls.{is_filled, with_early};

use crate::i_frame::IFrame;
use crate::machine::{Machine, push};
use crate::moves::copy_of;
use ax_frame::Control;
use circular_buffer::HeapCircularBuffer;
use radio_base::{COUNT_MAX, Modulus, Payload};

/// Places for payloads that come before their turn, the first for the next one expected.
pub(crate) type Places = HeapCircularBuffer<Option<Payload>>;

/// Leaves every place empty.
pub(crate) fn empty(early: &mut Places)
    ensures { early.new ≡ buffer (replicate early.old.capacity None) early.old.capacity }
{
    early.clear();
    for done in 0..early.capacity() {
        push(early, None);
    }
}

/// Whether a payload is kept in this place.
fn is_filled(early: &Places, place: usize) -> bool
    ensures { result ≡ is_filled (slice_get early.now.items place) }
{
    matches!(early.get(place), Some(Some(_)))
}

/// 1 more than the last place that is filled, 0 where none is.
fn top(early: &Places) -> usize
    ensures value { result ≡ state.top early.now.items }
    ensures within { result ≤ length early.now.items }
{
    let mut top = 0;
    for place in 0..early.len() {
        if is_filled(early, place) {
            top = place + 1;
        }
    }
    top
}

/// Keeps a payload, where none is kept in its place.
fn keep(early: &mut Places, place: usize, pid: u8, info: &[u8])
    requires { length info.now ≤ 256 }
    ensures { early.new ≡ buffer (with_early place (payload pid info.now) early.old.items) early.old.capacity }
{
    if let Some(kept) = early.get_mut(place) {
        if kept.is_none() {
            *kept = Some(Payload::of(pid, info));
        }
    }
}

/// What came early is one place nearer. The places are full, so that the first one leaves.
fn bring_nearer(early: &mut Places)
    requires { length early.old.items ≡ early.old.capacity }
    ensures { early.new ≡ buffer (keep_last early.old.capacity (early.old.items ++ None ∷ [])) early.old.capacity }
{
    // A link that asks for no single payloads has no places.
    if early.is_empty() {
        return;
    }
    let _ = early.push_back(None);
}

impl<M: Modulus> Machine<M> {
    ghost use Rattle.radio_base.specs.declared.payload.Payload.{Payload};
    ghost use Rattle.radio_base.specs.Modulus.{place_of};
    ghost use Rattle.ax_link.specs.declared.kind.Kind.TheVariants as Kind;
    ghost use Rattle.ax_link.specs.Moves as moves;
    ghost use Rattle.ax_link.specs.Standing.{Adds, state_of};
    ghost use Rattle.ax_link.specs.Calls.{Does, brought, ask_for_each, view_of, keep_early, ask_for_missing, move_on, take_next_payload};

    /// Takes the next payload: what came early is one place nearer.
    pub(crate) fn take_next(&mut self, pid: u8, info: &[u8])
        requires few { length info.now ≤ 256 }
        requires busy { length self.old.inbox.items < 64 }
        requires more { self.old.got < COUNT_MAX }
        ensures does { Does M.SIZE (take_next_payload (payload pid info.now)) self.old self.new }
        ensures adds { Adds 0 (view_of self.old) (view_of self.new) }
    {
        push(&mut self.inbox, Payload::of(pid, info));
        self.got += 1;
        bring_nearer(&mut self.early);
    }

    /// The early payload that is next, where it may be taken.
    fn next_early(&self) -> Option<Payload>
        ensures exact { (before received : List Payload) → length received ≡ self.now.got →
            result ≡ moves.next_early (state_of M.SIZE (view_of self.now) before received) }
        ensures room { IfSome result (λ _. (length self.now.inbox.items < 64) × (self.now.got < COUNT_MAX)) }
    {
        if self.is_busy() || self.got >= COUNT_MAX {
            return None;
        }
        match self.early.front() {
            Some(Some(payload)) => Some(copy_of(payload)),
            _ => None,
        }
    }

    /// Early payloads follow while they are next and the inbox isn't full.
    pub(crate) fn move_on(&mut self)
        ensures does { Does M.SIZE move_on self.old self.new }
        ensures adds { Adds 0 (view_of self.old) (view_of self.new) }
    {
        for done in 0..self.early.len() {
            match self.next_early() {
                Some(payload) => self.take_next(payload.pid, payload.info.as_slice()),
                None => return,
            }
        }
    }

    /// 1 more than the highest number that is known.
    fn high(&self) -> u64
        ensures exact { (before received : List Payload) → length received ≡ self.now.got →
            result ≡ state.high (state_of M.SIZE (view_of self.now) before received) }
        ensures low { self.now.got ≤ result }
        ensures most { result ≤ self.now.got + self.now.window }
    {
        self.got + top(&self.early) as u64
    }

    /// Which payload of the window has this number on the air.
    pub(crate) fn in_window(&self, ns: u8) -> Option<u64>
        requires { self.now.window < M.SIZE }
        ensures exact { result ≡ place_of M.SIZE ns self.now.got self.now.window }
        ensures bounds { IfSome result (λ number. (self.now.got ≤ number) × (number < self.now.got + self.now.window)) }
    {
        if (ns as u64) < M::SIZE {
            M::place(ns, self.got, self.window)
        } else {
            None
        }
    }

    /// Asks for this payload alone.
    fn ask_for(&mut self, number: u64)
        requires { length self.old.outs.items < 2 * self.old.window + 4 }
        ensures does { Does M.SIZE (moves.emit false (Kind.Srej (number % M.SIZE) false)) self.old self.new }
        ensures adds { Adds 1 (view_of self.old) (view_of self.new) }
        ensures got { self.new.got ≡ self.old.got }
    {
        let nr = M::wire(number);
        self.emit(false, Control::Srej { nr, pf: false });
    }

    /// Asks for `many` payloads from this number on.
    fn ask_for_each(&mut self, from: u64, many: u64)
        requires room { length self.old.outs.items + many ≤ 2 * self.old.window + 4 }
        requires within { from + many ≤ self.old.got + self.old.window }
        ensures does { Does M.SIZE (ask_for_each from many) self.old self.new }
        ensures adds { Adds many (view_of self.old) (view_of self.new) }
        ensures got { self.new.got ≡ self.old.got }
    {
        for number in from..from + many {
            self.ask_for(number);
        }
    }

    /// Asks for what is missing below this payload and wasn't known to be missing.
    fn ask_for_missing(&mut self, number: u64)
        requires room { length self.old.outs.items + self.old.window ≤ 2 * self.old.window + 4 }
        requires below { number < self.old.got + self.old.window }
        ensures does { Does M.SIZE (ask_for_missing number) self.old self.new }
        ensures adds { Adds (self.old.window - 1) (view_of self.old) (view_of self.new) }
        ensures got { self.new.got ≡ self.old.got }
    {
        let high = self.high();
        self.ask_for_each(high, number.saturating_sub(high));
    }

    /// Keeps the payload of this number, where none is kept in its place.
    fn keep_early(&mut self, number: u64, pid: u8, info: &[u8])
        requires few { length info.now ≤ 256 }
        requires from { self.old.got ≤ number }
        ensures does { Does M.SIZE (keep_early number (payload pid info.now)) self.old self.new }
        ensures adds { Adds 0 (view_of self.old) (view_of self.new) }
    {
        keep(&mut self.early, (number - self.got) as usize, pid, info);
    }

    /// A payload of the window has come before its turn.
    pub(crate) fn text_later(&mut self, i_frame: &IFrame<'_>, number: u64)
        requires room { length self.old.outs.items + self.old.window ≤ 2 * self.old.window + 4 }
        requires from { self.old.got ≤ number }
        requires below { number < self.old.got + self.old.window }
        ensures does { Does M.SIZE (moves.text_later i_frame.now.pf number (brought i_frame.now)) self.old self.new }
        ensures adds { Adds self.old.window (view_of self.old) (view_of self.new) }
    {
        self.ask_for_missing(number);
        self.keep_early(number, i_frame.pid, i_frame.info);
        self.answer_poll(i_frame.pf);
    }
}
