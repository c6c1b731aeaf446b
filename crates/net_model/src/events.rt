//! What there is to tell of a replay. `ends` notes these events, net_world makes them, and the crates of reports, verdicts and traces read
//! them.
ghost use Rattle.std.specs.Prelude.{◌≡◌, IfOk, IfSome};
ghost use Rattle.node_core.specs.Standing.{entry_of};
ghost use Rattle.net_model.specs.Events.{Entry, event_of};

use crate::end_datagrams::{EndDatagram, LostEnd, SentDatagram};
use crate::mails::{Offer, StoredMail};
use crate::refusals::LineRefusal;
use crate::table::Table;
use circuit_l4::Pair;
use circuit_table::SetEvent;
use l3_datagram::Datagram;
use node_core::NodeEntry;
use radio_base::NoMemory;
use std::alloc::Global;

/// Something that a replay has to tell. What is large and seldom stands on the heap, since there are three events for a frame.
#[derive(Debug, Drop)]
pub enum Event {
    /// What the node of that number tells, other than a datagram that an end has sent or taken in.
    Entry {
        node: u8,
        entry: Box<NodeEntry>,
    },
    /// An end of the node has sent a datagram.
    Sent {
        node: u8,
        sent: Box<SentDatagram>,
    },
    /// An end of the node has taken in a datagram of its partner's node.
    Heeded {
        node: u8,
        heeded: Box<EndDatagram>,
    },
    /// The frame of that number, from 1, was put in the air.
    InAir {
        frame: u32,
    },
    /// The frame of that number goes to the node.
    Delivered {
        frame: u32,
        node: u8,
    },
    /// The frame of that number is lost: it is settled, and goes nowhere.
    Settled {
        frame: u32,
    },
    /// A node's table was shown.
    Shown {
        table: Box<Table>,
    },
    /// This message was taken from an end.
    Took {
        node: u8,
        end: u32,
        message: Box<Vec<u8>>,
    },
    /// So many messages of a burst were written at an end.
    Wrote {
        node: u8,
        end: u32,
        count: u32,
    },
    /// The node was started anew.
    Restarted {
        node: u8,
        pair: Pair,
    },
    /// A restart took an end away.
    Lost {
        node: u8,
        end: Box<LostEnd>,
    },
    /// An act wasn't done.
    Refused {
        why: LineRefusal,
    },
    /// A mail was posted at the node, and has this number there.
    Posted {
        node: u8,
        number: u64,
    },
    /// The agent of the node has written a queued mail at an end.
    Offered {
        node: u8,
        offer: Box<Offer>,
    },
    /// A mail is stored at the node.
    MailStored {
        node: u8,
        mail: Box<StoredMail>,
    },
    /// The mail of that number, which was posted at the node, is stored where it was to go.
    MailSettled {
        node: u8,
        number: u64,
    },
}

/// An event with the number of the line at which it came, from 1.
#[derive(Debug, Drop)]
pub struct NumberedEvent {
    pub line: u32,
    pub event: Event,
}

/// What the node of that number tells, as an event, where it is a datagram that an end has sent or taken in: no more room is kept
/// than its octets take. An entry is long to move, and so is left where it stands.
pub fn datagram_event(alloc: Global, node: u8, entry: &NodeEntry) -> Result<Option<Event>, NoMemory>
    ensures { IfOk result (λ event. IfSome event (λ e. event_of e ≡ Entry node (entry_of entry.now))) }
{
    match entry {
        NodeEntry::Set(
            SetEvent::Sent {
                id,
                number,
                datagram,
            },
        ) => {
            let datagram = end_datagram(alloc, *id, datagram)?;
            let number = *number;
            let sent = Box::new(alloc, SentDatagram { number, datagram })?;
            Ok(Some(Event::Sent { node, sent }))
        }
        NodeEntry::Set(SetEvent::Heeded { id, datagram }) => {
            let datagram = end_datagram(alloc, *id, datagram)?;
            let heeded = Box::new(alloc, datagram)?;
            Ok(Some(Event::Heeded { node, heeded }))
        }
        _ => Ok(None),
    }
}

/// What the node of that number tells, as an event.
pub fn entry_event(alloc: Global, node: u8, entry: NodeEntry) -> Result<Event, NoMemory>
    ensures { IfOk result (λ event. event_of event ≡ Entry node (entry_of entry)) }
{
    let entry = Box::new(alloc, entry)?;
    Ok(Event::Entry { node, entry })
}

/// The datagram of the end of that number.
fn end_datagram(alloc: Global, id: u64, datagram: &Datagram) -> Result<EndDatagram, NoMemory>
    ensures id { IfOk result (λ kept. kept.id ≡ id) }
    ensures octets { IfOk result (λ kept. kept.octets.items ≡ datagram.now.items) }
{
    let octets = datagram.as_slice().to_vec(alloc)?;
    Ok(EndDatagram { id, octets })
}
