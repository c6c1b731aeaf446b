//! What events tell of ends and of their datagrams. Used by `ends` and `events`, and by the crates above.
use circuit_l4::EndFacts;

/// An end that a restart took away: its number at the node, and what it had come to.
#[derive(Clone, Copy, Debug)]
pub struct LostEnd {
    pub id: u64,
    pub facts: EndFacts,
}

/// A datagram of an end: the end's number at its node, and the octets.
#[derive(Debug, Drop)]
pub struct EndDatagram {
    pub id: u64,
    pub octets: Vec<u8>,
}

/// A datagram that an end has sent. That of an information message has the number of its fragment.
#[derive(Debug, Drop)]
pub struct SentDatagram {
    pub number: Option<u64>,
    pub datagram: EndDatagram,
}
