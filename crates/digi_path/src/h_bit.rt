//! A repeater's H bit (AX.25 2.2, section 3.12), in its address and in a frame's octets. Called by `digi_step`, `reversal` and stations.
ghost use Rattle.std.specs.Prelude.{◌≡◌, ◌≤◌, length};
ghost use Rattle.std.specs.List.{prefix_len};
ghost use Rattle.digi_path.specs.Paths.{has_repeated, h_octet, repeated_octets};

use ax_address::Address;

/// How many octets stand before the repeaters, and how many each address has.
const REPEATERS_AT: usize = 14;

const ADDRESS_LEN: usize = 7;
/// The octet of a repeater's address, from 0, that has its H bit, and that bit.
const LAST_OCTET: usize = 6;

const H_BIT: u8 = 0x80;

/// The repeater's address with this H bit.
pub(crate) fn with_h_bit(repeater: &Address, h_bit: bool) -> Address
    ensures { result ≡ record repeater.now { bit7 = h_bit } }
{
    let mut address = *repeater;
    address.bit7 = h_bit;
    address
}

/// How many repeaters at the front have repeated the frame.
pub(crate) fn times_repeated(path: &[Address]) -> usize
    ensures value { result ≡ prefix_len has_repeated path.now }
    ensures bound { result ≤ length path.now }
{
    path.iter().take_while(|repeater| repeater.bit7).count()
}

/// Sets the H bit of the first repeater that hasn't repeated the frame, in the frame's octets. Where they end before it, nothing is set.
pub fn set_h_bit(octets: &mut [u8], path: &[Address])
    ensures { octets.new ≡ repeated_octets path.now octets.old }
{
    let at = h_octet(path);
    if at < octets.len() {
        octets[at] |= H_BIT;
    }
}

/// The octet with the H bit of the first repeater that hasn't repeated the frame.
fn h_octet(path: &[Address]) -> usize
    ensures { result ≡ h_octet (prefix_len has_repeated path.now) }
{
    REPEATERS_AT + ADDRESS_LEN * times_repeated(path) + LAST_OCTET
}
