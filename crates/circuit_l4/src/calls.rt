//! What an end does for its user: opening, writing, closing, taking. Called by `end`.
ghost use Rattle.std.specs.Prelude.{◌≡◌, ◌+◌, ◌*◌, ◌≤◌, ◌<◌, [], ◌&&◌, nat_lt, length, None, OnOk, OnErr, IfOk};

use crate::beginning::Beginning;
use crate::config::EndConfig;
use crate::incoming::Incoming;
use crate::machine::Machine;
use crate::notice::EndNotice;
use crate::outgoing::{Outgoing, QUEUE_MAX};
use crate::phase::EndPhase;
use crate::refusal::WriteRefusal;
use circuit_reassembly::{LONGEST, Oversize, fragment_count};
use circular_buffer::HeapCircularBuffer;
use l3_datagram::Message;
use radio_base::{COUNT_MAX, Millis, NoMemory};
use std::alloc::Global;

impl Machine {
    ghost use Rattle.circuit_l4.specs.Table as table;
    ghost use Rattle.circuit_l4.specs.State.{State, begin, is_up, Receiving, busy};
    ghost use Rattle.circuit_l4.specs.Opening as opening;
    ghost use Rattle.circuit_l4.specs.Opening.{IsConfig};
    ghost use Rattle.circuit_l4.specs.Calls.{Adds, Does, IsIdle, MayWrite};
    ghost use Rattle.circuit_l4.specs.Standing.{KeepsEffect, StandsFor, view_of};
    ghost use Rattle.circuit_l4.specs.Table.{resume};
    ghost use Rattle.circuit_l4.specs.Halves.{IsReceiving, first_or};

    /// An end that has known nothing yet. Takes all the memory that is ever needed.
    pub(crate) fn new(
        alloc: Global,
        beginning: Beginning,
        config: EndConfig,
        now: Millis,
    ) -> Result<Machine, NoMemory>
        requires window { beginning.window ≤ config.window }
        requires config { IsConfig config }
        ensures opening { IfOk result (λ m. KeepsEffect (view_of m) (begin (opening.new beginning config now))) }
        ensures outs { IfOk result (λ m. m.outs.items ≡ []) }
        ensures config { IfOk result (λ m. m.config ≡ config) }
    {
        let outgoing = Outgoing::new(alloc)?;
        let incoming = Incoming::new(alloc, config.window)?;
        let outs = HeapCircularBuffer::with_capacity(alloc, 2 * config.window as usize + 2)?;
        Ok(Machine {
            role: beginning.role,
            pair: beginning.pair,
            to: beginning.to,
            config,
            phase: beginning.phase,
            window: beginning.window,
            outgoing,
            incoming,
            choked: false,
            closing: false,
            tries: 0,
            answer_due: None,
            last_active: now.ms(),
            outs,
            notice: None,
        })
    }

    /// Whether a message is accepted.
    pub(crate) fn write_answer(&self, message: &[u8]) -> Result<(), WriteRefusal>
        ensures exact { (s : State) → StandsFor (view_of self.now) s → result ≡ table.write_answer s message.now }
        ensures room { OnOk result (MayWrite message.now self.now.outgoing) }
    {
        if !self.is_up() {
            return Err(WriteRefusal::NotUp);
        }
        if self.closing {
            return Err(WriteRefusal::Closing);
        }
        if message.is_empty() {
            return Err(WriteRefusal::Empty);
        }
        if message.len() > LONGEST {
            return Err(WriteRefusal::TooLong);
        }
        if self.outgoing.queued() + message.len() > QUEUE_MAX {
            return Err(WriteRefusal::QueueFull);
        }
        if self.outgoing.total() + fragment_count(message.len()) as u64 > COUNT_MAX {
            return Err(WriteRefusal::Exhausted);
        }
        Ok(())
    }

    pub(crate) fn write(&mut self, message: &[u8], now: Millis) -> Result<(), WriteRefusal>
        requires outs { self.old.outs.items ≡ [] }
        ensures answer { (s : State) → StandsFor (view_of self.old) s → result ≡ table.write_answer s message.now }
        ensures does { OnOk result (Does (table.write now message.now) self.old self.new) }
        ensures err { OnErr result (view_of self.new ≡ view_of self.old) }
        ensures config { self.new.config ≡ self.old.config }
    {
        self.write_answer(message)?;
        self.accept(message, now);
        Ok(())
    }

    /// Writes a message for which there is room.
    fn accept(&mut self, message: &[u8], now: Millis)
        requires outs { self.old.outs.items ≡ [] }
        requires message { MayWrite message.now self.old.outgoing }
        ensures does { Does (table.write now message.now) self.old self.new }
        ensures config { self.new.config ≡ self.old.config }
    {
        self.outgoing.write(message);
        self.last_active = now.ms();
        self.fill(now);
    }

    pub(crate) fn close(&mut self, now: Millis)
        requires outs { self.old.outs.items ≡ [] }
        ensures does { Does (table.close now) self.old self.new }
        ensures config { self.new.config ≡ self.old.config }
    {
        if self.may_close() {
            self.close_in_turn(now);
        }
    }

    fn may_close(&self) -> bool
        ensures { result ≡ table.may_close self.now.phase }
    {
        matches!(self.phase, EndPhase::Connecting | EndPhase::Up)
    }

    fn close_in_turn(&mut self, now: Millis)
        requires outs { self.old.outs.items ≡ [] }
        ensures does { Does (table.close_in_turn now) self.old self.new }
        ensures config { self.new.config ≡ self.old.config }
    {
        self.closing = true;
        self.finish(now);
    }

    pub(crate) fn take(&mut self, out: &mut Message) -> bool
        requires { IsIdle self.old }
        ensures does { Does table.take_first self.old self.new }
        ensures message { out.new.items ≡ first_or out.old.items self.old.incoming.messages }
        ensures answer { result ≡ nat_lt 0 (length self.old.incoming.messages) }
        ensures config { self.new.config ≡ self.old.config }
    {
        let was_busy = self.is_up_and_busy();
        if !self.incoming.take(out) {
            return false;
        }
        if was_busy && !self.incoming.is_busy() {
            self.resume();
        }
        true
    }

    fn is_up_and_busy(&self) -> bool
        ensures { (r : Receiving) → IsReceiving self.now.incoming r → result ≡ (is_up self.now.phase && busy r) }
    {
        self.is_up() && self.incoming.is_busy()
    }

    /// An end that was busy goes on: early fragments follow, and the other end is told.
    fn resume(&mut self)
        requires { IsIdle self.old }
        ensures does { Does resume self.old self.new }
        ensures config { self.new.config ≡ self.old.config }
    {
        match self.incoming.move_on() {
            Ok(()) => self.emit_ack(false),
            Err(Oversize) => self.end(EndNotice::FailedOversize),
        }
    }
}
