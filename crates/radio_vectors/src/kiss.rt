//! KISS: frames in a stream of bytes (Chepponis and Karn, 1987; what becomes of a wrong escape is this project's profile). Used by
//! `tests/kiss`.
use crate::Maker;

/// What a KISS frame has.
#[derive(Clone, Copy)]
pub struct KissFrame {
    /// From 0 to 15.
    pub port: u8,
    /// From 0 to 15: 0 is data.
    pub command: u8,
    /// The bytes behind the type byte, without escapes.
    pub payload: &'static [u8],
}

/// A KISS frame alone: the bytes are read as it, and it is written as them.
#[derive(Clone, Copy)]
pub struct KissVector {
    pub maker: Maker,
    pub bytes: &'static [u8],
    pub frame: KissFrame,
}

/// A stream that is read alone: no frame is written so.
#[derive(Clone, Copy)]
pub struct KissStream {
    pub bytes: &'static [u8],
    /// The frames, each with the place of the byte that ends it, from 0.
    pub frames: &'static [(usize, KissFrame)],
}

/// Single frames, both ways.
pub const KISS_FRAMES: [KissVector; 8] = [
    KissVector {
        maker: Maker::Worked,
        bytes: &[0xC0, 0x00, 0x41, 0xDB, 0xDC, 0x42, 0xC0],
        frame: KissFrame {
            port: 0,
            command: 0,
            payload: &[0x41, 0xC0, 0x42],
        },
    },
    KissVector {
        maker: Maker::Worked,
        bytes: &[0xC0, 0x00, 0xDB, 0xDD, 0xC0],
        frame: KissFrame {
            port: 0,
            command: 0,
            payload: &[0xDB],
        },
    },
    KissVector {
        maker: Maker::Worked,
        bytes: &[0xC0, 0xDB, 0xDC, 0x01, 0xC0],
        frame: KissFrame {
            port: 12,
            command: 0,
            payload: &[0x01],
        },
    },
    KissVector {
        maker: Maker::Worked,
        bytes: &[0xC0, 0x01, 0x32, 0xC0],
        frame: KissFrame {
            port: 0,
            command: 1,
            payload: &[0x32],
        },
    },
    KissVector {
        maker: Maker::Worked,
        bytes: &[0xC0, 0xFF, 0xC0],
        frame: KissFrame {
            port: 15,
            command: 15,
            payload: &[],
        },
    },
    KissVector {
        maker: Maker::Linux,
        bytes: &[
            0xC0, 0x00, 0x9C, 0x60, 0x84, 0x84, 0xB0, 0x40, 0x6E, 0x9C, 0x60, 0x82, 0x82, 0xB0,
            0x40, 0xE1, 0x41, 0xC0,
        ],
        frame: KissFrame {
            port: 0,
            command: 0,
            payload: &[
                0x9C, 0x60, 0x84, 0x84, 0xB0, 0x40, 0x6E, 0x9C, 0x60, 0x82, 0x82, 0xB0, 0x40, 0xE1,
                0x41,
            ],
        },
    },
    KissVector {
        maker: Maker::Linux,
        bytes: &[
            0xC0, 0x00, 0x9C, 0x9E, 0x88, 0x8A, 0xA6, 0x40, 0xE0, 0x9C, 0x60, 0x84, 0x84, 0x84,
            0x40, 0x61, 0x03, 0xCF, 0xFF, 0x42, 0x52, 0x41, 0x56, 0x4F, 0x20, 0x9C, 0x60, 0x82,
            0x82, 0x82, 0x40, 0x00, 0x41, 0x4C, 0x50, 0x48, 0x41, 0x20, 0x9C, 0x60, 0x82, 0x82,
            0x82, 0x40, 0x00, 0xDB, 0xDC, 0xC0,
        ],
        frame: KissFrame {
            port: 0,
            command: 0,
            payload: &[
                0x9C, 0x9E, 0x88, 0x8A, 0xA6, 0x40, 0xE0, 0x9C, 0x60, 0x84, 0x84, 0x84, 0x40, 0x61,
                0x03, 0xCF, 0xFF, 0x42, 0x52, 0x41, 0x56, 0x4F, 0x20, 0x9C, 0x60, 0x82, 0x82, 0x82,
                0x40, 0x00, 0x41, 0x4C, 0x50, 0x48, 0x41, 0x20, 0x9C, 0x60, 0x82, 0x82, 0x82, 0x40,
                0x00, 0xC0,
            ],
        },
    },
    KissVector {
        maker: Maker::Direwolf,
        bytes: &[
            0xC0, 0x00, 0xA2, 0xA6, 0xA8, 0x40, 0x40, 0x40, 0xE0, 0x9C, 0x60, 0x88, 0xAE, 0x82,
            0x40, 0xE1, 0x03, 0xF0, 0x62, 0x65, 0x61, 0x63, 0x6F, 0x6E, 0x0D, 0xC0,
        ],
        frame: KissFrame {
            port: 0,
            command: 0,
            payload: &[
                0xA2, 0xA6, 0xA8, 0x40, 0x40, 0x40, 0xE0, 0x9C, 0x60, 0x88, 0xAE, 0x82, 0x40, 0xE1,
                0x03, 0xF0, 0x62, 0x65, 0x61, 0x63, 0x6F, 0x6E, 0x0D,
            ],
        },
    },
];

/// Streams with empty pieces, wrong escapes or no first FEND; worked by hand.
pub const KISS_STREAMS: [KissStream; 3] = [
    KissStream {
        bytes: &[
            0xC0, 0x00, 0x41, 0xDB, 0xDC, 0x42, 0xC0, 0xC0, 0xC0, 0x00, 0x43, 0xC0,
        ],
        frames: &[
            (
                6,
                KissFrame {
                    port: 0,
                    command: 0,
                    payload: &[0x41, 0xC0, 0x42],
                },
            ),
            (
                11,
                KissFrame {
                    port: 0,
                    command: 0,
                    payload: &[0x43],
                },
            ),
        ],
    },
    KissStream {
        bytes: &[0xC0, 0x00, 0xDB, 0xDB, 0x41, 0xC0],
        frames: &[(
            5,
            KissFrame {
                port: 0,
                command: 0,
                payload: &[0x41],
            },
        )],
    },
    KissStream {
        bytes: &[0x00, 0xDB, 0xC0],
        frames: &[(
            2,
            KissFrame {
                port: 0,
                command: 0,
                payload: &[],
            },
        )],
    },
];
