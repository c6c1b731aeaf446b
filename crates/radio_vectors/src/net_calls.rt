//! Calls in broadcasts, datagrams and transports (NET/ROM, Appendix B; the ignored bits are written as this project's profile says). Used
//! by `tests/addresses`.
use crate::Maker;
use ax_address::AddressRefusal;

/// A call: both octets are read as it, and it is written as `written`.
#[derive(Clone, Copy)]
pub struct NetCallVector {
    pub maker: Maker,
    /// As they came: bits 0, 5, 6 and 7 of the last octet may be any.
    pub octets: [u8; 7],
    /// The text of the call.
    pub call: &'static str,
    pub written: [u8; 7],
}

/// Calls of NET/ROM.
pub const NET_CALLS: [NetCallVector; 6] = [
    NetCallVector {
        maker: Maker::Worked,
        octets: [0x9C, 0x60, 0x86, 0x82, 0x98, 0x98, 0x6E],
        call: "N0CALL-7",
        written: [0x9C, 0x60, 0x86, 0x82, 0x98, 0x98, 0x6E],
    },
    NetCallVector {
        maker: Maker::Worked,
        octets: [0x9C, 0x60, 0x86, 0x82, 0x98, 0x98, 0x0E],
        call: "N0CALL-7",
        written: [0x9C, 0x60, 0x86, 0x82, 0x98, 0x98, 0x6E],
    },
    NetCallVector {
        maker: Maker::Worked,
        octets: [0x9C, 0x60, 0x86, 0x82, 0x98, 0x98, 0xEF],
        call: "N0CALL-7",
        written: [0x9C, 0x60, 0x86, 0x82, 0x98, 0x98, 0x6E],
    },
    NetCallVector {
        maker: Maker::Linux,
        octets: [0x9C, 0x60, 0x82, 0x82, 0x82, 0x40, 0x60],
        call: "N0AAA",
        written: [0x9C, 0x60, 0x82, 0x82, 0x82, 0x40, 0x60],
    },
    NetCallVector {
        maker: Maker::Linux,
        octets: [0x9C, 0x60, 0x84, 0x84, 0x84, 0x40, 0x61],
        call: "N0BBB",
        written: [0x9C, 0x60, 0x84, 0x84, 0x84, 0x40, 0x60],
    },
    NetCallVector {
        maker: Maker::Linux,
        octets: [0x9C, 0x60, 0x82, 0x82, 0x82, 0x40, 0x00],
        call: "N0AAA",
        written: [0x9C, 0x60, 0x82, 0x82, 0x82, 0x40, 0x60],
    },
];

/// Octets that are no call, with the first one at fault; worked by hand.
pub const REFUSED_NET_CALLS: [([u8; 7], AddressRefusal); 1] = [(
    [0x9C, 0x40, 0x86, 0x82, 0x98, 0x98, 0x6E],
    AddressRefusal::BadPadding { at: 2 },
)];
