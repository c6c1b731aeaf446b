//! The lines of a KISS stream: one for each item, and where one listens closer, what each frame carries.
//!
//! `add_item` gives the line of an item, as `frames` lists it. A `Listener` takes the items of a stream in, one after another, and adds the
//! line of each and below it what the frame carries: a NODES broadcast, a datagram with its transport, text, a segment, a packet of IPv4 or a
//! message of ARP. It follows the set-up commands, so that sequence numbers are read as the stations count them.
#![tactic(auto)]

mod contents;
mod datagrams;
mod listener;
mod listing;
mod nodes;
mod packets;
mod stations;
mod texts;
mod transports;
mod words;

pub use listener::Listener;
pub use listing::add_item;
