//! Octets and the values that they stand for: a table for each format that goes over the air, with vectors worked by hand from its layout and
//! vectors that other programs sent. The crate has no calls: its tests read each vector by the codecs and write it again by them.
//!
//! A call stands as its text, since only the codecs make calls. Where a format has octets or bits that are ignored when read, a vector
//! has the octets as they came and those that are written.
#![tactic(auto)]

pub mod addresses;
pub mod controls;
pub mod datagrams;
pub mod frames;
pub mod kiss;
mod maker;
pub mod net_calls;
pub mod nodes;
pub mod segments;
#[cfg(test)]
mod tests;
pub mod transports;

pub use maker::Maker;
