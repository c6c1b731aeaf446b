//! What is kept of the datagrams that ends have sent, and of the information messages that were heeded. Called by `book` and `cause`.
ghost use Rattle.std.specs.Prelude.{◌≡◌, ◌<◌, ◌≤◌, ◌+◌, ◌^◌, ◌∷◌, [], OnOk, IfOk, ℕ, suc, List, Option, Some, None, cond, length, filter, nat_lt, nat_eq, true, false, slice_index_or, ◌&&◌, ◌||◌};
ghost use Rattle.std.specs.BTreeMap as ordered;
ghost use Rattle.indexmap.specs.IndexMap.{get};
ghost use Rattle.indexmap.specs.IndexSet.{contains};
ghost use Rattle.l3_datagram.specs.declared.datagram.TheConstants.{HEAD_SIZE as head_size};
ghost use Rattle.circuit_set.specs.Books as books;
ghost use Rattle.circuit_table.specs.Events as set_events;
ghost use Rattle.circuit_verdict.specs.Lists.{list_in};
ghost use Rattle.circuit_verdict.specs.Sendings as sends;
ghost use Rattle.circuit_verdict.specs.declared.sendings.Likeness.{Likeness as SeenLikeness};
ghost use Rattle.circuit_verdict.specs.declared.message.Message.{Message as SeenMessage};

use crate::lists::Lists;
use crate::message::{Message, MessageName};
use crate::names::Name;
use indexmap::IndexSet;
use l3_datagram::{HEAD_SIZE, TTL_AT};
use radio_base::NoMemory;
use std::alloc::Global;
use std::collections::BTreeMap;

/// A datagram without its time to live, and the end that has sent it: copies are equal in it.
#[derive(Drop, PartialEq, Eq, PartialOrd, Ord)]
pub(crate) struct Likeness {
    pub(crate) who: Name,
    pub(crate) octets: Vec<u8>,
}

/// A sending: its place among all events, and the number of the fragment that it carried.
#[derive(Clone, Copy, Debug, PartialEq, Eq)]
pub(crate) struct Sending {
    pub(crate) place: u64,
    pub(crate) number: Option<u64>,
}

/// All sendings, and which information messages were heeded.
#[derive(Drop)]
pub(crate) struct Sendings {
    alloc: Global,
    /// The latest sending of each datagram.
    pub(crate) latest: BTreeMap<Likeness, Sending>,
    /// The information messages of each end, in the order of their first sendings.
    pub(crate) messages: Lists<Name, Message>,
    /// The information messages that were sent, each with its sender.
    pub(crate) sent: IndexSet<MessageName>,
    /// The information messages that were heeded, each with the end that has heeded it.
    pub(crate) heard: IndexSet<MessageName>,
}

impl Sendings {
    pub(crate) fn new(alloc: Global) -> Sendings
        ensures { sends.SendingsStand result 0 [] [] }
    {
        Sendings {
            alloc,
            latest: BTreeMap::new(alloc),
            messages: Lists::new(alloc),
            sent: IndexSet::new(alloc),
            heard: IndexSet::new(alloc),
        }
    }

    /// The latest sending by an end of which this is a copy.
    pub(crate) fn latest(&self, who: &Name, datagram: &[u8]) -> Result<Option<Sending>, NoMemory>
        ensures { IfOk result (λ found. (place : ℕ) (ss : List books.SentNote) (hs : List books.HeardNote)
            → sends.SendingsStand self.now place ss hs
            → found ≡ sends.sending_in (books.latest_in ss who.now datagram.now)) }
    {
        if datagram.len() < HEAD_SIZE {
            return Ok(None);
        }
        let likeness = make_likeness(self.alloc, who, datagram)?;
        Ok(self.latest.get(&likeness).copied())
    }

    /// An end has sent a datagram, later than all before.
    pub(crate) fn send(
        &mut self,
        who: &Name,
        datagram: &[u8],
        sending: Sending,
    ) -> Result<(), NoMemory>
        ensures { OnOk result ((ss : List books.SentNote) (hs : List books.HeardNote)
            → sends.SendingsStand self.old sending.place ss hs
            → sends.SendingsStand self.new (suc sending.place)
            (record { who = who.now; place = sending.place; number = sending.number; datagram = datagram.now } ∷ ss)
            hs) }
    {
        self.note_latest(who, datagram, sending)?;
        self.note_number(who, sending)?;
        Ok(())
    }

    fn note_latest(&mut self, who: &Name, datagram: &[u8], sending: Sending) -> Result<(), NoMemory>
        ensures rest { self.new ≡ record self.old { latest = self.new.latest } }
        ensures latest { OnOk result ((ss : List books.SentNote)
            → ((k : SeenLikeness) → ordered.get sends.likeness_cmp self.old.latest k
            ≡ sends.latest_like ss k.who k.octets.items)
            → (k : SeenLikeness) → ordered.get sends.likeness_cmp self.new.latest k
            ≡ sends.latest_like
            (record { who = who.now; place = sending.place; number = sending.number; datagram = datagram.now } ∷ ss)
            k.who k.octets.items) }
    {
        if datagram.len() < HEAD_SIZE {
            return Ok(());
        }
        let likeness = make_likeness(self.alloc, who, datagram)?;
        self.latest.insert(likeness, sending)?;
        Ok(())
    }

    /// Notes an information message at its first sending.
    fn note_number(&mut self, who: &Name, sending: Sending) -> Result<(), NoMemory>
        ensures rest { self.new ≡ record self.old { messages = self.new.messages; sent = self.new.sent } }
        ensures messages { OnOk result ((ss : List books.SentNote)
            → ((x : set_events.Name) (n : ℕ)
            → contains sends.same_message self.old.sent (sends.message_name x n) ≡ books.has x n ss)
            → (x : set_events.Name) → list_in (get set_events.same_name self.new.messages.lists x)
            ≡ sends.with_message who.now sending.number sending.place ss x
            (list_in (get set_events.same_name self.old.messages.lists x))) }
        ensures sent { OnOk result ((x : set_events.Name) (n : ℕ)
            → contains sends.same_message self.new.sent (sends.message_name x n)
            ≡ set_events.same_name who.now x && books.is_number sending.number n
            || contains sends.same_message self.old.sent (sends.message_name x n)) }
    {
        match sending.number {
            Some(number) => self.note_message(who, number, sending.place),
            None => Ok(()),
        }
    }

    fn note_message(&mut self, who: &Name, number: u64, place: u64) -> Result<(), NoMemory>
        ensures rest { self.new ≡ record self.old { messages = self.new.messages; sent = self.new.sent } }
        ensures messages { OnOk result ((ss : List books.SentNote)
            → ((x : set_events.Name) (n : ℕ)
            → contains sends.same_message self.old.sent (sends.message_name x n) ≡ books.has x n ss)
            → (x : set_events.Name) → list_in (get set_events.same_name self.new.messages.lists x)
            ≡ sends.with_message who.now (Some number) place ss x
            (list_in (get set_events.same_name self.old.messages.lists x))) }
        ensures sent { OnOk result ((x : set_events.Name) (n : ℕ)
            → contains sends.same_message self.new.sent (sends.message_name x n)
            ≡ set_events.same_name who.now x && nat_eq number n
            || contains sends.same_message self.old.sent (sends.message_name x n)) }
    {
        if !self.sent.insert(MessageName::of(who, number))? {
            return Ok(());
        }
        let message = Message {
            number,
            first: place,
        };
        self.messages.push(*who, message)?;
        Ok(())
    }

    /// An end has heeded an information message.
    pub(crate) fn hear(&mut self, who: &Name, number: u64) -> Result<(), NoMemory>
        ensures { OnOk result ((place : ℕ) (ss : List books.SentNote) (hs : List books.HeardNote)
            → sends.SendingsStand self.old place ss hs
            → sends.SendingsStand self.new place ss (books.heard_number who.now (Some number) hs)) }
    {
        self.heard.insert(MessageName::of(who, number))?;
        Ok(())
    }

    /// How many information messages of the circuit of these two ends, of either direction, were first sent after this
    /// place, and were heeded.
    pub(crate) fn overtakers(&self, one: &Name, other: &Name, place: u64) -> usize
        ensures { (last : ℕ) (ss : List books.SentNote) (hs : List books.HeardNote)
            → sends.SendingsStand self.now last ss hs
            → result ≡ books.overtakers one.now other.now place ss hs }
    {
        let by_other = self.heard_after(one, other, place);
        // No run makes an end that is its own partner, but a list of events may.
        if one == other {
            return by_other;
        }
        by_other + self.heard_after(other, one, place)
    }

    /// How many information messages of an end were first sent after this place, and were heeded by another one.
    fn heard_after(&self, sender: &Name, heard_by: &Name, place: u64) -> usize
        ensures exact { (last : ℕ) (ss : List books.SentNote) (hs : List books.HeardNote)
            → sends.SendingsStand self.now last ss hs
            → result ≡ sends.heard_after ss hs sender.now heard_by.now place }
        ensures small { result < 2 ^ 63 }
    {
        let messages = self.messages.of(sender);
        // They stand in the order of their first sendings, so those that count stand at the back.
        let later = first_later(messages, place);
        self.heard_among(heard_by, &messages[later..])
    }

    fn heard_among(&self, who: &Name, messages: &[Message]) -> usize
        ensures exact { result ≡ length (filter (λ (m : SeenMessage). contains sends.same_message self.now.heard
            (sends.message_name who.now m.number)) messages.now) }
        ensures small { result < 2 ^ 63 }
    {
        messages
            .iter()
            .filter(|message| self.heard.contains(&MessageName::of(who, message.number)))
            .count()
    }
}

/// What a datagram of an end has in common with its copies.
fn make_likeness(alloc: Global, who: &Name, datagram: &[u8]) -> Result<Likeness, NoMemory>
    requires { head_size ≤ length datagram.now }
    ensures who { IfOk result (λ likeness. likeness.who ≡ who.now) }
    ensures octets { IfOk result (λ likeness. likeness.octets.items ≡ sends.core datagram.now) }
{
    // (what differs between the datagrams of an end comes first, so that two are told apart early)
    let mut octets = Vec::with_capacity(alloc, datagram.len())?;
    octets.extend_from_slice(&datagram[HEAD_SIZE..])?;
    octets.extend_from_slice(&datagram[..TTL_AT])?;
    Ok(Likeness { who: *who, octets })
}

/// The place of the first message that was first sent after that place.
fn first_later(messages: &[Message], place: u64) -> usize
    ensures bound { result ≤ length messages.now }
    ensures before { sends.Rises messages.now → (i : ℕ) (d : SeenMessage) → i < result
        → nat_lt place (slice_index_or messages.now i d).first ≡ false }
    ensures after { sends.Rises messages.now → (i : ℕ) (d : SeenMessage) → result ≤ i → i < length messages.now
        → nat_lt place (slice_index_or messages.now i d).first ≡ true }
{
    messages.partition_point(|message| message.first <= place)
}
