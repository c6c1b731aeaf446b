//! Messages that wait to be taken, in rings. Called by `incoming` and `outgoing`.
ghost use Rattle.std.specs.Prelude.{◌≡◌, ◌+◌, ◌≤◌, ◌<◌, ◌++◌, ◌∷◌, [], length, take, drop, slice_get, nat_lt, IfOk};
ghost use Rattle.std.specs.Option.{option_map};
ghost use Rattle.circuit_l4.specs.Queued.{IsQueue, cut};
ghost use Rattle.circular_buffer.specs.Buffer.{buffer};
ghost use Rattle.circuit_reassembly.specs.Fragments.{fragment_at, fragments_in};
ghost use Rattle.circuit_l4.specs.State.{bytes_of, fragments_of_all};
ghost use Rattle.circuit_l4.specs.Halves.{first_or, fragment_in};

use crate::piece::Piece;
use arrayvec::ArrayVec;
use circuit_reassembly::{FRAGMENT, fragment_count};
use circular_buffer::HeapCircularBuffer;
use l3_datagram::Message;
use radio_base::NoMemory;
use std::alloc::Global;
use std::marker::Model;

/// Messages one behind the other, none of them empty: their bytes in one ring, and their lengths beside them. They have their
/// room from the start.
#[derive(Drop)]
pub(crate) struct Messages {
    bytes: HeapCircularBuffer<u8>,
    lengths: HeapCircularBuffer<u16>,
}

impl Model for Messages {
    ghost use Rattle.circuit_l4.specs.Queued.{Queue, IsQueue, cut};

    ghost Value = { Queue };

    ghost view = { λ m. record { messages = cut m.lengths.items m.bytes.items; room = m.bytes.capacity } };

    ghost invariant = { λ m. IsQueue m.bytes m.lengths };
}

impl Messages {
    /// None waits. There is room for messages of so many bytes, at most 65,536.
    pub(crate) fn new(alloc: Global, room: usize) -> Result<Messages, NoMemory>
        requires { room ≤ 65536 }
        ensures { IfOk result (λ m. m ≡ record { messages = []; room = room }) }
    {
        Ok(Messages {
            bytes: HeapCircularBuffer::with_capacity(alloc, room)?,
            lengths: HeapCircularBuffer::with_capacity(alloc, room)?,
        })
    }

    /// How many bytes the messages have.
    pub(crate) fn size(&self) -> usize
        ensures { result ≡ bytes_of self.now.messages }
    {
        self.bytes.len()
    }

    /// Appends a message for which there is room.
    pub(crate) fn push(&mut self, message: &[u8])
        requires some { 0 < length message.now }
        requires most { length message.now ≤ 8192 }
        requires room { bytes_of self.old.messages + length message.now ≤ self.old.room }
        ensures { self.new ≡ record self.old { messages = self.old.messages ++ message.now ∷ [] } }
    {
        self.bytes.extend_from_slice(message);
        let _ = self.lengths.push_back(message.len() as u16);
    }

    /// How many bytes the first message has.
    pub(crate) fn front_len(&self) -> Option<usize>
        ensures { result ≡ option_map length (slice_get self.now.messages 0) }
    {
        match self.lengths.front() {
            Some(len) => Some(*len as usize),
            None => None,
        }
    }

    /// The first message leaves.
    pub(crate) fn drop_first(&mut self)
        ensures { self.new ≡ record self.old { messages = drop 1 self.old.messages } }
    {
        if let Some(len) = self.lengths.pop_front() {
            drop_front(&mut self.bytes, len as usize);
        }
    }

    /// Takes the first message; false where none waits, and `out` is as it was then.
    pub(crate) fn pop(&mut self, out: &mut Message) -> bool
        ensures answer { result ≡ nat_lt 0 (length self.old.messages) }
        ensures message { out.new.items ≡ first_or out.old.items self.old.messages }
        ensures rest { self.new ≡ record self.old { messages = drop 1 self.old.messages } }
    {
        let Some(len) = self.lengths.pop_front() else {
            return false;
        };
        copy_front(&self.bytes, len as usize, out);
        drop_front(&mut self.bytes, len as usize);
        true
    }

    /// The `nth` fragment of the messages, counted from 0.
    pub(crate) fn fragment(&self, nth: u64) -> Option<Piece>
        ensures { option_map fragment_in result ≡ slice_get (fragments_of_all self.now.messages) nth }
    {
        fragment_of(&self.bytes, &self.lengths, nth)
    }
}

/// The `nth` fragment, counted from 0, of messages of these lengths.
fn fragment_of(
    bytes: &HeapCircularBuffer<u8>,
    lengths: &HeapCircularBuffer<u16>,
    nth: u64,
) -> Option<Piece>
    requires { IsQueue bytes.now lengths.now }
    ensures { option_map fragment_in result ≡ slice_get (fragments_of_all (cut lengths.now.items bytes.now.items)) nth }
{
    let mut left = nth;
    let mut start = 0;
    for len in lengths.iter() {
        let len = *len as usize;
        let count = fragment_count(len) as u64;
        if left < count {
            return Some(fragment_in_ring(bytes, start, len, left as usize));
        }
        left -= count;
        start += len;
    }
    None
}

/// Copies so many bytes from the front of a ring.
fn copy_front(bytes: &HeapCircularBuffer<u8>, len: usize, out: &mut Message)
    requires held { len ≤ length bytes.now.items }
    requires most { len ≤ 8192 }
    ensures { out.new.items ≡ take len bytes.now.items }
{
    let (front, back) = part(bytes, 0, len);
    out.clear();
    let _ = out.try_extend_from_slice(front);
    let _ = out.try_extend_from_slice(back);
}

/// So many bytes leave the front of a ring.
fn drop_front(bytes: &mut HeapCircularBuffer<u8>, len: usize)
    requires { len ≤ length bytes.old.items }
    ensures { bytes.new ≡ buffer (drop len bytes.old.items) bytes.old.capacity }
{
    let rest = bytes.len() - len;
    bytes.truncate_front(rest);
}

/// The `nth` fragment, counted from 0, of the message of `len` bytes that begins at `start`.
fn fragment_in_ring(bytes: &HeapCircularBuffer<u8>, start: usize, len: usize, nth: usize) -> Piece
    requires held { start + len ≤ length bytes.now.items }
    requires room { length bytes.now.items ≤ 65536 }
    requires nth { nth < fragments_in len }
    ensures { fragment_in result ≡ fragment_at (take len (drop start bytes.now.items)) nth }
{
    let before = nth * FRAGMENT;
    let rest = len - before;
    let (front, back) = part(bytes, start + before, rest.min(FRAGMENT));
    Piece {
        text: text_of(front, back),
        more: rest > FRAGMENT,
    }
}

/// The text in two slices.
fn text_of(front: &[u8], back: &[u8]) -> ArrayVec<u8, 236>
    requires { length front.now + length back.now ≤ 236 }
    ensures { result.items ≡ front.now ++ back.now }
{
    let mut text = ArrayVec::new();
    let _ = text.try_extend_from_slice(front);
    let _ = text.try_extend_from_slice(back);
    text
}

/// So many bytes of a ring from a place on, in the two slices in which they lie.
fn part(bytes: &HeapCircularBuffer<u8>, start: usize, len: usize) -> (&[u8], &[u8])
    requires { start + len ≤ length bytes.now.items }
    ensures { result.0.now ++ result.1.now ≡ take len (drop start bytes.now.items) }
{
    let (front, back) = bytes.as_slices();
    let end = start + len;
    let from = start.min(front.len());
    let to = end.min(front.len());
    (&front[from..to], &back[start - from..end - to])
}
