//! IPv4 over UI frames: packets (RFC 791), address resolution (RFC 826) and a forwarder that answers echo requests (RFC 792).
//!
//! Packets are the information of UI frames with the PID 0xCC, and messages of ARP that of UI frames with the PID 0xCD
//! (AX.25 2.2, section 3.4). Nothing is fragmented, and options are carried along unread. No call takes memory.
#![tactic(auto)]

mod arp;
mod content;
mod echo;
mod forwarder;
mod ip_done;
pub mod laws;
mod messages;
mod neighbours;
mod numbers;
mod onward;
mod out;
mod packet;
mod packets;
mod route;
mod routes;
mod sums;

pub use arp::{Arp, ArpRefusal, read_arp, write_arp};
pub use forwarder::Forwarder;
pub use ip_done::{IpDone, IpWhy};
pub use out::{ARP_PID, IP_PID, IpOut};
pub use packet::{PacketHead, PacketRefusal, read_packet};
pub use routes::RouteRefusal;
