//! The sending half of an end: what was written and isn't wholly acknowledged. Called by `calls`, `machine` and `output`.
ghost use Rattle.std.specs.Prelude.{◌≡◌, ◌+◌, ◌-◌, ◌≤◌, ◌<◌, ◌++◌, ◌∷◌, [], length, IfOk};
ghost use Rattle.radio_base.specs.declared.modulus.TheConstants.{COUNT_MAX};
ghost use Rattle.circuit_reassembly.specs.Fragments.{fragments_of};
ghost use Rattle.circuit_l4.specs.State.{Sending, bytes_of, unacknowledged, written};
ghost use Rattle.circuit_l4.specs.Halves.{IsSending, fragment_in};
ghost use Rattle.circuit_l4.specs.Forgetting.{Forgets, ForgetsFirst};
ghost use Rattle.circuit_l4.specs.Outputs.{fragment_from};

use crate::messages::Messages;
use crate::piece::{Piece, piece_of};
use circuit_reassembly::fragment_count;
use radio_base::{COUNT_MAX, NoMemory};
use std::alloc::Global;
use std::marker::Model;

/// How many bytes of messages that aren't wholly acknowledged an end holds at most (this project's profile).
pub const QUEUE_MAX: usize = 65536;

/// What was written for the other end and isn't wholly acknowledged. It has its room from the start.
#[derive(Drop)]
pub(crate) struct Outgoing {
    queue: Messages,
    /// How many fragments of the first message of the queue are acknowledged.
    done: u64,
    acked: u64,
    sent: u64,
    /// How many messages were ever written.
    wrote: u64,
    /// How many fragments they have.
    total: u64,
}

impl Model for Outgoing {
    ghost use Rattle.circuit_l4.specs.Halves.{Outbox};

    ghost Value = { Outbox };

    ghost use Rattle.circuit_l4.specs.Outboxes.{IsKept, outbox_of};

    ghost view = { outbox_of };

    ghost invariant = { IsKept };
}

impl Outgoing {
    /// Nothing is written. Takes all the memory that is ever needed.
    pub(crate) fn new(alloc: Global) -> Result<Outgoing, NoMemory>
        ensures { IfOk result (λ o. o ≡ record { queue = []; done = 0; acked = 0; sent = 0; wrote = 0; total = 0 }) }
    {
        Ok(Outgoing {
            queue: Messages::new(alloc, QUEUE_MAX)?,
            done: 0,
            acked: 0,
            sent: 0,
            wrote: 0,
            total: 0,
        })
    }

    pub(crate) fn acked(&self) -> u64
        ensures { result ≡ self.now.acked }
    {
        self.acked
    }

    pub(crate) fn sent(&self) -> u64
        ensures { result ≡ self.now.sent }
    {
        self.sent
    }

    /// How many messages were ever written.
    pub(crate) fn wrote(&self) -> u64
        ensures { result ≡ self.now.wrote }
    {
        self.wrote
    }

    /// How many fragments they have.
    pub(crate) fn total(&self) -> u64
        ensures { result ≡ self.now.total }
    {
        self.total
    }

    /// The bytes of the messages that aren't wholly acknowledged.
    pub(crate) fn queued(&self) -> usize
        ensures exact { (s : Sending) → IsSending self.now s → result ≡ unacknowledged s }
        ensures value { result ≡ bytes_of self.now.queue }
        ensures most { result ≤ 65536 }
    {
        self.queue.size()
    }

    /// Writes a message.
    pub(crate) fn write(&mut self, message: &[u8])
        requires some { 0 < length message.now }
        requires fits { length message.now ≤ 8192 }
        requires queue { bytes_of self.old.queue + length message.now ≤ 65536 }
        requires room { self.old.total + length (fragments_of message.now) ≤ COUNT_MAX }
        ensures does { (s : Sending) → IsSending self.old s → IsSending self.new (written message.now s) }
        ensures acked { self.new.acked ≡ self.old.acked }
        ensures sent { self.new.sent ≡ self.old.sent }
        ensures total { self.new.total ≡ self.old.total + length (fragments_of message.now) }
        ensures few { bytes_of self.new.queue ≤ 65536 }
    {
        self.queue.push(message);
        self.wrote += 1;
        self.total += fragment_count(message.len()) as u64;
    }

    /// The fragments below this number are acknowledged: messages of which all are, are forgotten.
    pub(crate) fn acknowledge(&mut self, below: u64)
        requires from { self.old.acked ≤ below }
        requires to { below ≤ self.old.sent }
        ensures does { (s : Sending) → IsSending self.old s → IsSending self.new (record s { acked = below }) }
        ensures acked { self.new.acked ≡ below }
        ensures sent { self.new.sent ≡ self.old.sent }
        ensures total { self.new.total ≡ self.old.total }
        ensures few { bytes_of self.new.queue ≤ 65536 }
    {
        self.done += below - self.acked;
        self.acked = below;
        forget(&mut self.queue, &mut self.done);
    }

    /// So many fragments more are put out.
    pub(crate) fn put_out(&mut self, many: u64)
        requires { self.old.sent + many ≤ self.old.total }
        ensures does { (s : Sending) → IsSending self.old s → IsSending self.new (record s { sent = s.sent + many }) }
        ensures rest { self.new ≡ record self.old { sent = self.old.sent + many } }
        ensures few { bytes_of self.new.queue ≤ 65536 }
    {
        self.sent += many;
    }

    /// The fragment of this number; an empty one where its message isn't in the queue.
    pub(crate) fn piece(&self, number: u64) -> Piece
        ensures { fragment_in result ≡ fragment_from self.now.queue (self.now.acked - self.now.done) number }
    {
        let first = self.acked - self.done;
        match self.queue.fragment(number.saturating_sub(first)) {
            Some(piece) => piece,
            None => piece_of(&[], false),
        }
    }
}

/// Forgets each message at the front whose fragments are all among the `done` that are acknowledged, and takes these off `done`.
fn forget(queue: &mut Messages, done: &mut u64)
    ensures forgets { Forgets queue.old.messages done.old queue.new.messages done.new }
    ensures room { queue.new.room ≡ queue.old.room }
{
    while forget_first(queue, done) {}
}

/// Forgets the first message where its fragments are all among the `done` that are acknowledged, and takes these off `done`. Answers
/// whether it did.
fn forget_first(queue: &mut Messages, done: &mut u64) -> bool
    ensures forgets { ForgetsFirst result queue.old.messages done.old queue.new.messages done.new }
    ensures room { queue.new.room ≡ queue.old.room }
{
    let Some(len) = queue.front_len() else {
        return false;
    };
    let count = fragment_count(len) as u64;
    if *done < count {
        return false;
    }
    *done -= count;
    queue.drop_first();
    true
}
