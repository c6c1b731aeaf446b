//! NET/ROM datagrams (Appendix B, level 3): their octets, what carries them to a neighbour, and the router that takes
//! one towards a node that nobody here hears.
//!
//! A carrier is anything that takes a datagram to a neighbour: links, or a list in memory. The router is written over
//! the trait `Carrier` alone, so nothing here knows of frames.
#![tactic(auto)]

mod carrier;
mod datagram;
pub mod laws;
mod plain_carrier;
mod routed;
mod router;
mod sending;

pub use carrier::{Carrier, Offered};
pub use datagram::{
    Datagram, DatagramHead, DatagramRefusal, HEAD_SIZE, MAX_DATAGRAM, Message, TTL_AT, TooLong,
    read_datagram, write_datagram,
};
pub use plain_carrier::{MAX_OFFERED, PlainCarrier};
pub use routed::Routed;
pub use router::Router;
pub use sending::Sending;
