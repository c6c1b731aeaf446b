//! The receiving half of an end: what came and wasn't taken. Called by `calls`, `end`, `moves` and `texts`.
ghost use Rattle.std.specs.Prelude.{◌≡◌, ◌+◌, ◌≤◌, ◌↔◌, [], length, nat_lt, replicate, IfOk, IfSome, IsTrue, None};
ghost use Rattle.circular_buffer.specs.Buffer.{buffer};
ghost use Rattle.circuit_reassembly.specs.Fragments.{gather_step};
ghost use Rattle.circuit_reassembly.specs.Kept.{still};
ghost use Rattle.circuit_l4.specs.State.{bytes_of, Receiving};
ghost use Rattle.circuit_l4.specs.State as spec;
ghost use Rattle.circuit_l4.specs.Halves.{IsReceiving, Takes, receipt_answer, first_or, moved_answer, take_message, whole_answer, with_answer, IsFew};
ghost use Rattle.circuit_l4.specs.Inboxes.{AreSmall};

use crate::messages::Messages;
use crate::piece::{Piece, copy_of};
use circuit_reassembly::{FRAGMENT, Gather, Gathered, Oversize};
use circular_buffer::HeapCircularBuffer;
use l3_datagram::Message;
use radio_base::{COUNT_MAX, M256, Modulus, NoMemory};
use std::alloc::Global;
use std::marker::Model;

/// How many bytes wait to be taken before an end is busy (this project's profile).
pub const BUSY_AT: usize = 16384;

/// The most bytes that messages have which wait to be taken: an end that holds 16,384 takes in no more, and a fragment has at
/// most 236.
const ROOM: usize = BUSY_AT + FRAGMENT;

/// Places for fragments that come before their turn, the first for the next one expected.
type Places = HeapCircularBuffer<Option<Piece>>;

/// What came from the other end, and wasn't taken.
#[derive(Drop)]
pub(crate) struct Incoming {
    got: u64,
    early: Places,
    gather: Gather,
    inbox: Messages,
    /// How many messages ever came whole.
    received: u64,
    /// How many bytes are in the inbox and gathered.
    waiting: usize,
    /// The last number that was asked for.
    nak_sent_for: Option<u64>,
}

impl Model for Incoming {
    ghost use Rattle.circuit_l4.specs.Halves.{Inbox};

    ghost Value = { Inbox };

    ghost use Rattle.circuit_l4.specs.Inboxes.{IsInbox, inbox_of};

    ghost view = { inbox_of };

    ghost invariant = { IsInbox };
}

impl Incoming {
    /// Nothing has come. Takes all the memory that is ever needed.
    pub(crate) fn new(alloc: Global, window: u8) -> Result<Incoming, NoMemory>
        ensures value { IfOk result (λ i. i ≡ record {
          got = 0;
          early = replicate window None;
          gathered = [];
          messages = [];
          received = 0;
          nak_sent_for = None;
        }) }
        ensures few { IfOk result IsFew }
    {
        Ok(Incoming {
            got: 0,
            early: empty_places(alloc, window)?,
            gather: Gather::new(alloc)?,
            inbox: Messages::new(alloc, ROOM)?,
            received: 0,
            waiting: 0,
            nak_sent_for: None,
        })
    }

    /// The number of the next fragment expected.
    pub(crate) fn got(&self) -> u64
        ensures { result ≡ self.now.got }
    {
        self.got
    }

    /// How many messages ever came whole.
    pub(crate) fn received(&self) -> u64
        ensures { result ≡ self.now.received }
    {
        self.received
    }

    /// The bytes that came and weren't taken.
    pub(crate) fn waiting(&self) -> usize
        ensures { (r : Receiving) → IsReceiving self.now r → result ≡ spec.waiting r }
    {
        self.waiting
    }

    /// Whether no text is taken in for now.
    pub(crate) fn is_busy(&self) -> bool
        ensures { (r : Receiving) → IsReceiving self.now r → result ≡ spec.busy r }
    {
        self.waiting >= BUSY_AT
    }

    /// Whether the next fragment may be taken in.
    fn takes(&self) -> bool
        ensures { IsTrue result ↔ Takes self.now }
    {
        self.waiting < BUSY_AT && self.got < COUNT_MAX
    }

    /// A fragment has come with this number on the air. Answers whether the next one expected has to be asked for.
    pub(crate) fn receive(&mut self, window: u64, tx: u8, piece: &Piece) -> Result<bool, Oversize>
        requires window { window ≤ length self.old.early }
        requires numbers { window ≤ 256 }
        ensures does { (r : Receiving) → IsReceiving self.old r
            → IsReceiving self.new (spec.receive window tx piece.now r).half }
        ensures answer { (r : Receiving) → IsReceiving self.old r
            → result ≡ receipt_answer (spec.receive window tx piece.now r) }
        ensures places { length self.new.early ≡ length self.old.early }
        ensures few { IsFew self.new }
    {
        if !self.takes() {
            return Ok(false);
        }
        match M256::place(tx, self.got, window) {
            Some(number) => self.receive_at(number, piece),
            None => Ok(false),
        }
    }

    /// The fragment of this number has come.
    fn receive_at(&mut self, number: u64, piece: &Piece) -> Result<bool, Oversize>
        requires takes { Takes self.old }
        requires from { self.old.got ≤ number }
        ensures does { (r : Receiving) → IsReceiving self.old r
            → IsReceiving self.new (spec.receive_at number piece.now r).half }
        ensures answer { (r : Receiving) → IsReceiving self.old r
            → result ≡ receipt_answer (spec.receive_at number piece.now r) }
        ensures places { length self.new.early ≡ length self.old.early }
        ensures few { IsFew self.new }
    {
        if self.got < number {
            Ok(self.receive_early(number, piece))
        } else {
            self.receive_next(piece)
        }
    }

    /// A fragment has come before its turn: the next one expected is asked for, once.
    fn receive_early(&mut self, number: u64, piece: &Piece) -> bool
        requires { self.old.got ≤ number }
        ensures does { (r : Receiving) → IsReceiving self.old r
            → IsReceiving self.new (spec.receive_early number piece.now r).half }
        ensures answer { (r : Receiving) → IsReceiving self.old r
            → result ≡ (spec.receive_early number piece.now r).nak }
        ensures places { length self.new.early ≡ length self.old.early }
        ensures few { IsFew self.new }
    {
        keep(&mut self.early, (number - self.got) as usize, piece);
        let asks = self.nak_sent_for != Some(self.got);
        self.nak_sent_for = Some(self.got);
        asks
    }

    /// The next fragment has come.
    fn receive_next(&mut self, piece: &Piece) -> Result<bool, Oversize>
        requires { Takes self.old }
        ensures does { (r : Receiving) → IsReceiving self.old r
            → IsReceiving self.new (spec.receive_next piece.now r).half }
        ensures answer { (r : Receiving) → IsReceiving self.old r
            → result ≡ receipt_answer (spec.receive_next piece.now r) }
        ensures places { length self.new.early ≡ length self.old.early }
        ensures few { IsFew self.new }
    {
        self.append(piece)?;
        self.move_on()?;
        Ok(false)
    }

    /// Appends the next fragment. What came early is one place nearer then.
    fn append(&mut self, piece: &Piece) -> Result<(), Oversize>
        requires { Takes self.old }
        ensures does { (r : Receiving) → IsReceiving self.old r
            → IsReceiving self.new (spec.append piece.now.text.items piece.now.more r).half }
        ensures answer { (r : Receiving) → IsReceiving self.old r
            → result ≡ moved_answer (spec.append piece.now.text.items piece.now.more r) }
        ensures places { length self.new.early ≡ length self.old.early }
        ensures few { IsFew self.new }
    {
        let text = piece.text.as_slice();
        let whole = gather_next(&mut self.gather, &mut self.inbox, text, piece.more)?;
        self.received += u64::from(whole);
        self.waiting += text.len();
        self.got += 1;
        // The places are full, so that the first one leaves.
        let _ = self.early.push_back(None);
        Ok(())
    }

    /// The early fragment that is next, where it may be taken.
    fn next_early(&self) -> Option<Piece>
        ensures exact { (r : Receiving) → IsReceiving self.now r → result ≡ spec.next_early r }
        ensures takes { IfSome result (λ _. Takes self.now) }
    {
        if !self.takes() {
            return None;
        }
        match self.early.front() {
            Some(Some(piece)) => Some(copy_of(piece)),
            _ => None,
        }
    }

    /// Early fragments follow while they are next and the end isn't busy.
    pub(crate) fn move_on(&mut self) -> Result<(), Oversize>
        ensures does { (r : Receiving) → IsReceiving self.old r → IsReceiving self.new (spec.follow r).half }
        ensures answer { (r : Receiving) → IsReceiving self.old r → result ≡ moved_answer (spec.follow r) }
        ensures places { length self.new.early ≡ length self.old.early }
        ensures few { IsFew self.new }
    {
        for done in 0..self.early.len() {
            match self.next_early() {
                Some(piece) => self.append(&piece)?,
                None => return Ok(()),
            }
        }
        Ok(())
    }

    /// Whether a message waits.
    pub(crate) fn has_message(&self) -> bool
        ensures { result ≡ nat_lt 0 (length self.now.messages) }
    {
        self.inbox.front_len().is_some()
    }

    /// Takes the first message; false where none waits, and `out` is as it was then.
    pub(crate) fn take(&mut self, out: &mut Message) -> bool
        ensures does { (r : Receiving) → IsReceiving self.old r → IsReceiving self.new (take_message result r) }
        ensures message { out.new.items ≡ first_or out.old.items self.old.messages }
        ensures answer { result ≡ nat_lt 0 (length self.old.messages) }
        ensures places { length self.new.early ≡ length self.old.early }
        ensures few { IsFew self.new }
    {
        if !self.inbox.pop(out) {
            return false;
        }
        self.waiting -= out.len();
        true
    }
}

/// So many places, with nothing in them.
fn empty_places(alloc: Global, many: u8) -> Result<Places, NoMemory>
    ensures value { IfOk result (λ early. early ≡ buffer (replicate many None) many) }
    ensures small { IfOk result (λ early. AreSmall early.items) }
{
    let mut early = HeapCircularBuffer::with_capacity(alloc, many as usize)?;
    for done in 0..many {
        let _ = early.push_back(None);
    }
    Ok(early)
}

/// Keeps a fragment, where none is kept in its place.
fn keep(early: &mut Places, place: usize, piece: &Piece)
    ensures keeps { early.new ≡ buffer (spec.keep place piece.now early.old.items) early.old.capacity }
    ensures small { AreSmall early.old.items → AreSmall early.new.items }
{
    if let Some(kept) = early.get_mut(place) {
        if kept.is_none() {
            *kept = Some(copy_of(piece));
        }
    }
}

/// Appends the next fragment to what is gathered. Answers whether it completes a message that has bytes.
fn gather_next(
    gather: &mut Gather,
    inbox: &mut Messages,
    text: &[u8],
    more: bool,
) -> Result<bool, Oversize>
    requires text { length text.now ≤ 236 }
    requires room { bytes_of inbox.old.messages + length gather.old.held + length text.now ≤ inbox.old.room }
    ensures held { gather.new ≡ still (gather_step gather.old.held text.now more).0 }
    ensures messages { inbox.new
        ≡ record inbox.old { messages = with_answer (gather_step gather.old.held text.now more).1 inbox.old.messages } }
    ensures answer { result ≡ whole_answer (gather_step gather.old.held text.now more).1 }
{
    match gather.push(text, more) {
        Ok(Gathered::More) => Ok(false),
        Ok(Gathered::Whole(message)) => {
            let some = keep_message(inbox, message);
            gather.let_go();
            Ok(some)
        }
        Err(Oversize) => Err(Oversize),
    }
}

/// Keeps a message, and answers whether it has bytes; one without is dropped.
fn keep_message(inbox: &mut Messages, message: &[u8]) -> bool
    requires most { length message.now ≤ 8192 }
    requires room { bytes_of inbox.old.messages + length message.now ≤ inbox.old.room }
    ensures messages { inbox.new ≡ record inbox.old { messages = spec.with_message message.now inbox.old.messages } }
    ensures answer { result ≡ nat_lt 0 (length message.now) }
{
    if message.is_empty() {
        return false;
    }
    inbox.push(message);
    true
}
