//! What the ends of a circuit say to each other (NET/ROM, Appendix B, level 4). Used by most files here, and by `circuit_table` and
//! `frame_lines`.
use crate::pair::Pair;
use arrayvec::ArrayVec;
use ax_address::Call;

/// The most octets of a transport: as many as a datagram has room for.
pub const MAX_TRANSPORT: usize = 241;
/// The most bytes of text in one transport.
pub const MAX_TEXT: usize = 236;
/// How many octets each transport begins with.
pub(crate) const HEAD_SIZE: usize = 5;

/// The flags in the opcode octet (NET/ROM, Appendix B).
#[derive(Clone, Copy, Debug, Default, PartialEq, Eq)]
pub struct Flags {
    /// The sender takes no text for now.
    pub choke: bool,
    /// The sender asks for the text of the next number expected again.
    pub nak: bool,
    /// The message goes on in the next text.
    pub more: bool,
}

/// What one end of a circuit says to the other. `to` is the pair of the end that it is for, `tx` the number of a text,
/// and `rx` the next number expected.
#[derive(Clone, Debug, Drop, PartialEq, Eq)]
pub enum Transport {
    /// A user at a node asks for a circuit. The pair is the one of the end that asks.
    Request {
        pair: Pair,
        window: u8,
        user: Call,
        node: Call,
    },
    /// The circuit stands, with the pair of the end that says so and the window that it takes.
    Accept {
        to: Pair,
        own: Pair,
        window: u8,
    },
    /// There will be no circuit.
    Refuse {
        to: Pair,
    },
    /// The circuit shall end.
    Disconnect {
        to: Pair,
    },
    /// The circuit has ended.
    Disconnected {
        to: Pair,
    },
    /// Text.
    Info {
        to: Pair,
        tx: u8,
        rx: u8,
        flags: Flags,
        text: ArrayVec<u8, 236>,
    },
    /// What was got so far, without text.
    InfoAck {
        to: Pair,
        rx: u8,
        flags: Flags,
    },
}

/// Why octets are no transport. Places count octets from 0.
#[derive(Clone, Copy, Debug, PartialEq, Eq)]
pub enum TransportRefusal {
    /// The octets end at `at`, where another must stand.
    Short { at: usize },
    /// Bits 3 to 0 of octet 4 are no opcode, or bit 4 is 1.
    BadOpcode,
    /// The octet at `at` can't stand in a call there.
    BadCall { at: usize },
    /// There are more than 241 octets.
    TooLong,
}
