//! Tests of packets, of messages of ARP and of forwarders: worked frames, and routes in both orders.
//!
//! They stand here and not in their crate, since a crate with tests is proved twice.
#![tactic(auto)]

#[cfg(test)]
mod arps;
#[cfg(test)]
mod forwarders;
#[cfg(test)]
mod packets;
