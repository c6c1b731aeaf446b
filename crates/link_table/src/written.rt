//! Frames in octets, as a node hands them out. Made by `pending`, and by `node_core` for broadcasts and repeated frames.
use crate::Octets;
use radio_base::LinkModulus;

/// A frame that waits to be sent.
#[derive(Debug, Drop, PartialEq, Eq)]
pub struct Written {
    /// From the first address octet to the last one of the information.
    pub octets: Octets,
    /// By which modulus its sequence numbers were written, which the octets alone don't tell: modulo 8 where it has none. None
    /// where it is repeated as it came from another station.
    pub modulus: Option<LinkModulus>,
}
