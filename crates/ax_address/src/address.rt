//! One address of a frame, and the path of its repeaters (AX.25 2.2, section 3.12). Used by `octets`, and by `ax_frame`, `digi_path` and
//! crates above.
ghost use Rattle.std.specs.Prelude.{◌≤◌};

use crate::Call;
use arrayvec::ArrayVec;

/// One address of a frame (AX.25 2.2, section 3.12).
#[derive(Clone, Copy, Debug, PartialEq, Eq)]
pub struct Address {
    pub call: Call,
    /// Bit 7 of the octet with the SSID: the C bit of a destination or source, the H bit of a repeater.
    pub bit7: bool,
    /// Bits 6 and 5 of that octet, as a number from 0 to 3.
    pub reserved: u8,
    ghost two_bits: { reserved ≤ 3 },
}

impl Default for Address {
    fn default() -> Self {
        Address {
            call: Call::default(),
            bit7: false,
            reserved: 3,
        }
    }
}

/// The most repeaters of a frame (AX.25 2.2, section 3.12).
pub const MAX_REPEATERS: usize = 8;

/// The repeaters of a frame, in the order in which they repeat it.
pub type Path = ArrayVec<Address, MAX_REPEATERS>;
