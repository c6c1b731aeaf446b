//! Transports: what the ends of a circuit send each other (NET/ROM, Appendix B). Used by `tests/transports`.
use crate::Maker;
use circuit_l4::{Flags, Pair, TransportRefusal};

/// What a transport says: `Transport` of the codec, with texts for calls.
#[derive(Clone, Copy)]
pub enum Said {
    Request {
        pair: Pair,
        window: u8,
        user: &'static str,
        node: &'static str,
    },
    Accept {
        to: Pair,
        own: Pair,
        window: u8,
    },
    Refuse {
        to: Pair,
    },
    Disconnect {
        to: Pair,
    },
    Disconnected {
        to: Pair,
    },
    Info {
        to: Pair,
        tx: u8,
        rx: u8,
        flags: Flags,
        text: &'static [u8],
    },
    InfoAck {
        to: Pair,
        rx: u8,
        flags: Flags,
    },
}

/// A transport: the octets are read as it, and it is written as `written`.
#[derive(Clone, Copy)]
pub struct TransportVector {
    pub maker: Maker,
    /// As they came.
    pub octets: &'static [u8],
    pub said: Said,
    pub written: &'static [u8],
}

const ONE: Pair = Pair { index: 1, ident: 1 };

const TO: Pair = Pair { index: 7, ident: 9 };

const OWN: Pair = Pair { index: 2, ident: 3 };

const NO_FLAGS: Flags = Flags {
    choke: false,
    nak: false,
    more: false,
};

/// Transports.
pub const TRANSPORTS: [TransportVector; 15] = [
    TransportVector {
        maker: Maker::Worked,
        octets: &[
            0x01, 0x01, 0x00, 0x00, 0x01, 0x04, 0x9C, 0x60, 0x82, 0x82, 0x82, 0x40, 0x60, 0x9C,
            0x60, 0x82, 0x82, 0x82, 0x40, 0x60,
        ],
        said: Said::Request {
            pair: ONE,
            window: 4,
            user: "N0AAA",
            node: "N0AAA",
        },
        written: &[
            0x01, 0x01, 0x00, 0x00, 0x01, 0x04, 0x9C, 0x60, 0x82, 0x82, 0x82, 0x40, 0x60, 0x9C,
            0x60, 0x82, 0x82, 0x82, 0x40, 0x60,
        ],
    },
    TransportVector {
        maker: Maker::Worked,
        octets: &[0x07, 0x09, 0x02, 0x03, 0x02, 0x05],
        said: Said::Accept {
            to: TO,
            own: OWN,
            window: 5,
        },
        written: &[0x07, 0x09, 0x02, 0x03, 0x02, 0x05],
    },
    TransportVector {
        maker: Maker::Worked,
        octets: &[0x07, 0x09, 0x00, 0x00, 0x82, 0x00],
        said: Said::Refuse { to: TO },
        written: &[0x07, 0x09, 0x00, 0x00, 0x82, 0x00],
    },
    TransportVector {
        maker: Maker::Worked,
        octets: &[0x07, 0x09, 0x00, 0x00, 0x82],
        said: Said::Refuse { to: TO },
        written: &[0x07, 0x09, 0x00, 0x00, 0x82, 0x00],
    },
    TransportVector {
        maker: Maker::Worked,
        octets: &[0x07, 0x09, 0x00, 0x00, 0x03],
        said: Said::Disconnect { to: TO },
        written: &[0x07, 0x09, 0x00, 0x00, 0x03],
    },
    TransportVector {
        maker: Maker::Worked,
        octets: &[0x07, 0x09, 0x00, 0x00, 0x04],
        said: Said::Disconnected { to: TO },
        written: &[0x07, 0x09, 0x00, 0x00, 0x04],
    },
    TransportVector {
        maker: Maker::Worked,
        octets: &[0x07, 0x09, 0x01, 0x01, 0xE4, 0x01],
        said: Said::Disconnected { to: TO },
        written: &[0x07, 0x09, 0x00, 0x00, 0x04],
    },
    TransportVector {
        maker: Maker::Worked,
        octets: &[0x07, 0x09, 0x04, 0x06, 0x25, 0x68, 0x69],
        said: Said::Info {
            to: TO,
            tx: 4,
            rx: 6,
            flags: Flags {
                choke: false,
                nak: false,
                more: true,
            },
            text: b"hi",
        },
        written: &[0x07, 0x09, 0x04, 0x06, 0x25, 0x68, 0x69],
    },
    TransportVector {
        maker: Maker::Worked,
        octets: &[0x07, 0x09, 0x00, 0x06, 0xC6],
        said: Said::InfoAck {
            to: TO,
            rx: 6,
            flags: Flags {
                choke: true,
                nak: true,
                more: false,
            },
        },
        written: &[0x07, 0x09, 0x00, 0x06, 0xC6],
    },
    TransportVector {
        maker: Maker::Linux,
        octets: &[
            0x01, 0x01, 0x00, 0x00, 0x01, 0x04, 0x9C, 0x60, 0x82, 0x82, 0x82, 0x40, 0x60, 0x9C,
            0x60, 0x82, 0x82, 0x82, 0x40, 0x60, 0x78, 0x00,
        ],
        said: Said::Request {
            pair: ONE,
            window: 4,
            user: "N0AAA",
            node: "N0AAA",
        },
        written: &[
            0x01, 0x01, 0x00, 0x00, 0x01, 0x04, 0x9C, 0x60, 0x82, 0x82, 0x82, 0x40, 0x60, 0x9C,
            0x60, 0x82, 0x82, 0x82, 0x40, 0x60,
        ],
    },
    TransportVector {
        maker: Maker::Linux,
        octets: &[0x01, 0x01, 0x01, 0x01, 0x02, 0x04, 0x10],
        said: Said::Accept {
            to: ONE,
            own: ONE,
            window: 4,
        },
        written: &[0x01, 0x01, 0x01, 0x01, 0x02, 0x04],
    },
    TransportVector {
        maker: Maker::Linux,
        octets: &[0x01, 0x01, 0x00, 0x00, 0x05, 0x6E, 0x0D],
        said: Said::Info {
            to: ONE,
            tx: 0,
            rx: 0,
            flags: NO_FLAGS,
            text: b"n\r",
        },
        written: &[0x01, 0x01, 0x00, 0x00, 0x05, 0x6E, 0x0D],
    },
    TransportVector {
        maker: Maker::Linux,
        octets: &[0x01, 0x01, 0x00, 0x01, 0x06],
        said: Said::InfoAck {
            to: ONE,
            rx: 1,
            flags: NO_FLAGS,
        },
        written: &[0x01, 0x01, 0x00, 0x01, 0x06],
    },
    TransportVector {
        maker: Maker::Linux,
        octets: &[0x01, 0x01, 0x00, 0x00, 0x03],
        said: Said::Disconnect { to: ONE },
        written: &[0x01, 0x01, 0x00, 0x00, 0x03],
    },
    TransportVector {
        maker: Maker::Linux,
        octets: &[0x01, 0x01, 0x00, 0x00, 0x04],
        said: Said::Disconnected { to: ONE },
        written: &[0x01, 0x01, 0x00, 0x00, 0x04],
    },
];

/// Octets that are no transport, with the reason; worked by hand.
pub const REFUSED_TRANSPORTS: [(&[u8], TransportRefusal); 7] = [
    (&[0x01, 0x01, 0x00, 0x00], TransportRefusal::Short { at: 4 }),
    (
        &[0x01, 0x01, 0x00, 0x00, 0x01],
        TransportRefusal::Short { at: 5 },
    ),
    (
        &[
            0x01, 0x01, 0x00, 0x00, 0x01, 0x04, 0x9C, 0x60, 0x82, 0x82, 0x82, 0x40, 0x60, 0x9C,
            0x60, 0x82, 0x82, 0x82, 0x40,
        ],
        TransportRefusal::Short { at: 19 },
    ),
    (
        &[
            0x01, 0x01, 0x00, 0x00, 0x01, 0x04, 0x9C, 0x60, 0x82, 0x82, 0x82, 0x40, 0x60, 0x9C,
            0x60, 0x83, 0x82,
        ],
        TransportRefusal::BadCall { at: 15 },
    ),
    (&[0x01, 0x01, 0x00, 0x00, 0x11], TransportRefusal::BadOpcode),
    (&[0x01, 0x01, 0x00, 0x00, 0x07], TransportRefusal::BadOpcode),
    (&[0; 242], TransportRefusal::TooLong),
];
