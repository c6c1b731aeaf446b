//! What a station keeps of its radios: who was heard where, by which port a call is reached, who speaks to a member by its alias, and
//! what is held back. And the addresses of a frame, as a station reads and changes them.
#![tactic(auto)]

mod alias_calls;
mod alias_peers;
mod heading;
mod heard_list;
mod held_back;
mod known_ports;
pub mod laws;
mod port_frame;
mod readdressed;

pub use alias_calls::call_of_alias;
pub use alias_peers::AliasPeers;
pub use heading::{Heading, heading_of};
pub use heard_list::{Heard, HeardList};
pub use held_back::{Held, HeldBack};
pub use known_ports::KnownPorts;
pub use port_frame::{FrameOctets, PortFrame};
pub use readdressed::{with_dest, with_source};

/// The most ports of a station (this project's profile).
pub const MAX_PORTS: usize = 8;
