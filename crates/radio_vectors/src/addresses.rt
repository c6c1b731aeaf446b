//! Addresses of frames (AX.25 2.2, section 3.12), and texts that are no calls (this project's profile). Used by `tests/addresses`.
use crate::Maker;
use ax_address::{AddressRefusal, CallRefusal};

/// One address: the octets are read as it, and it is written as them.
#[derive(Clone, Copy)]
pub struct AddressVector {
    pub maker: Maker,
    pub octets: [u8; 7],
    /// The text of the call.
    pub call: &'static str,
    /// The C bit of a destination or source, the H bit of a repeater.
    pub bit7: bool,
    /// Bits 6 and 5 of the last octet, as a number from 0 to 3.
    pub reserved: u8,
    /// Whether it is the last address of its frame.
    pub last: bool,
}

/// Addresses, both ways.
pub const ADDRESSES: [AddressVector; 8] = [
    AddressVector {
        maker: Maker::Worked,
        octets: [0x9C, 0x60, 0x86, 0x82, 0x98, 0x98, 0x6F],
        call: "N0CALL-7",
        bit7: false,
        reserved: 3,
        last: true,
    },
    AddressVector {
        maker: Maker::Worked,
        octets: [0x9C, 0x9E, 0x88, 0x8A, 0xA6, 0x40, 0xE0],
        call: "NODES",
        bit7: true,
        reserved: 3,
        last: false,
    },
    AddressVector {
        maker: Maker::Worked,
        octets: [0x82, 0x40, 0x40, 0x40, 0x40, 0x40, 0x00],
        call: "A",
        bit7: false,
        reserved: 0,
        last: false,
    },
    AddressVector {
        maker: Maker::Worked,
        octets: [0xB2, 0xB4, 0x64, 0x6E, 0x70, 0x6A, 0xDE],
        call: "YZ2785-15",
        bit7: true,
        reserved: 2,
        last: false,
    },
    AddressVector {
        maker: Maker::Linux,
        octets: [0x9C, 0x60, 0x84, 0x84, 0xB0, 0x40, 0xEF],
        call: "N0BBX-7",
        bit7: true,
        reserved: 3,
        last: true,
    },
    AddressVector {
        maker: Maker::Linux,
        octets: [0x9C, 0x60, 0x88, 0x88, 0xB0, 0x40, 0xE1],
        call: "N0DDX",
        bit7: true,
        reserved: 3,
        last: true,
    },
    AddressVector {
        maker: Maker::Linux,
        octets: [0x9C, 0x60, 0x86, 0x86, 0x86, 0x40, 0x7F],
        call: "N0CCC-15",
        bit7: false,
        reserved: 3,
        last: true,
    },
    AddressVector {
        maker: Maker::Direwolf,
        octets: [0xA2, 0xA6, 0xA8, 0x40, 0x40, 0x40, 0xE0],
        call: "QST",
        bit7: true,
        reserved: 3,
        last: false,
    },
];

/// Octets that are no address, with the first one at fault; worked by hand.
pub const REFUSED_ADDRESSES: [([u8; 7], AddressRefusal); 4] = [
    (
        [0x9C, 0x40, 0x86, 0x82, 0x98, 0x98, 0x6F],
        AddressRefusal::BadPadding { at: 2 },
    ),
    (
        [0x9C, 0x40, 0x40, 0x41, 0x86, 0x98, 0x6F],
        AddressRefusal::BadChar { at: 3 },
    ),
    (
        [0x40, 0x9C, 0x86, 0x82, 0x98, 0x98, 0x6F],
        AddressRefusal::BadChar { at: 0 },
    ),
    (
        [0x9C, 0x60, 0x86, 0x82, 0x98, 0x99, 0x6F],
        AddressRefusal::BadChar { at: 5 },
    ),
];

/// Texts that are no call, each with the reason; worked by hand.
pub const REFUSED_CALLS: [(&str, CallRefusal); 8] = [
    ("", CallRefusal::Empty),
    ("-1", CallRefusal::Empty),
    ("n0call", CallRefusal::BadChar { at: 0 }),
    ("N0 AAA-99", CallRefusal::BadChar { at: 2 }),
    ("N0CALLX", CallRefusal::TooLong { at: 6 }),
    ("N0CALL-16", CallRefusal::BadSsid { at: 7 }),
    ("N0CALL-07", CallRefusal::BadSsid { at: 7 }),
    ("N0CALL-", CallRefusal::BadSsid { at: 7 }),
];
