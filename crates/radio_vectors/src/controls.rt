//! Control fields (AX.25 2.2, section 4.2), all worked by hand: each is read behind two addresses, and written there. Used by
//! `tests/frames`.
use ax_frame::Control;

/// A control field and what it says.
pub type ControlVector = (&'static [u8], Control);

/// Frames without numbers: the field is the same modulo 8 and 128.
pub const UNNUMBERED: [ControlVector; 18] = [
    (&[0x2F], Control::Sabm { pf: false }),
    (&[0x3F], Control::Sabm { pf: true }),
    (&[0x6F], Control::Sabme { pf: false }),
    (&[0x7F], Control::Sabme { pf: true }),
    (&[0x43], Control::Disc { pf: false }),
    (&[0x53], Control::Disc { pf: true }),
    (&[0x0F], Control::Dm { pf: false }),
    (&[0x1F], Control::Dm { pf: true }),
    (&[0x63], Control::Ua { pf: false }),
    (&[0x73], Control::Ua { pf: true }),
    (&[0x87], Control::Frmr { pf: false }),
    (&[0x97], Control::Frmr { pf: true }),
    (&[0x03], Control::Ui { pf: false }),
    (&[0x13], Control::Ui { pf: true }),
    (&[0xAF], Control::Xid { pf: false }),
    (&[0xBF], Control::Xid { pf: true }),
    (&[0xE3], Control::Test { pf: false }),
    (&[0xF3], Control::Test { pf: true }),
];

/// Numbered frames modulo 8.
pub const NUMBERED_M8: [ControlVector; 8] = [
    (&[0x41], Control::Rr { nr: 2, pf: false }),
    (&[0x51], Control::Rr { nr: 2, pf: true }),
    (&[0xE5], Control::Rnr { nr: 7, pf: false }),
    (&[0x09], Control::Rej { nr: 0, pf: false }),
    (&[0x4D], Control::Srej { nr: 2, pf: false }),
    (
        &[0xB6],
        Control::I {
            ns: 3,
            nr: 5,
            pf: true,
        },
    ),
    (
        &[0x00],
        Control::I {
            ns: 0,
            nr: 0,
            pf: false,
        },
    ),
    (
        &[0xEE],
        Control::I {
            ns: 7,
            nr: 7,
            pf: false,
        },
    ),
];

/// Numbered frames modulo 128.
pub const NUMBERED_M128: [ControlVector; 7] = [
    (&[0x01, 0x0B], Control::Rr { nr: 5, pf: true }),
    (&[0x01, 0xFE], Control::Rr { nr: 127, pf: false }),
    (&[0x05, 0x10], Control::Rnr { nr: 8, pf: false }),
    (&[0x09, 0x00], Control::Rej { nr: 0, pf: false }),
    (&[0x0D, 0x81], Control::Srej { nr: 64, pf: true }),
    (
        &[0xFE, 0x00],
        Control::I {
            ns: 127,
            nr: 0,
            pf: false,
        },
    ),
    (
        &[0x10, 0x21],
        Control::I {
            ns: 8,
            nr: 16,
            pf: true,
        },
    ),
];
